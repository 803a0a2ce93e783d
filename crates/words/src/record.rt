// Abandonment record: n, shard; n reach sizes; n groups of transaction, at, end, anchor, charge; routes joined.
ghost use Rattle.std.specs.Prelude.{◌≡◌, true, false, ◌+◌, ◌*◌, ◌≤◌, ◌<◌, length, drop, MatchOption};
ghost use Rattle.lists.specs.Lists.{total, self as itself};
ghost use Rattle.rules.specs.Words.{transaction_at, group_count, record_shard, reach_sizes, group_size, groups_at, reaches_at, record_formed, record_timed};
ghost use Rattle.rules.specs.Entries.{rebuilt};
ghost use Rattle.entry.specs.Entry.{Means};
ghost use Rattle.words.specs.Taken.{group_at, reach_at, figures_timed};
ghost use Rattle.types.specs.Transactions.{number_of};

use crate::taken::bare;
use entry::{Certificate, Entry, Part};
use lists::slices::{all_within, part, size_at, total, word_at};
use types::{Shard, Transaction, is_time};

// The words of a record that is well formed.
#[derive(Clone, Copy)]
pub struct Record<'a> {
    words: &'a [u64],
    pub ghost formed: { record_formed words.now ≡ true },
}

#[tactic(auto, using(crate::proofs::Groups::record_is, crate::proofs::Groups::reaches_few))]
fn is_formed(words: &[u64]) -> bool
    ensures { result ≡ record_formed words.now }
{
    let n = size_at(words, 0);
    if words.len() < 2 || 48 < n || words.len() < 2 + n + 5 * n {
        return false;
    }
    let sizes = part(words, 2, n);
    all_within(sizes, 8) && words.len() == 2 + n + 5 * n + total(sizes) as usize
}

// Whether the times of the group at a place are allowed.
fn group_timed(words: &[u64], at: usize) -> bool
    requires { at ≤ length words.now }
    ensures { result ≡ figures_timed at words.now }
{
    is_time(word_at(words, at + 1))
        && is_time(word_at(words, at + 2))
        && is_time(word_at(words, at + 3))
}

// The shard whose record it is. This and where routes lie are answered for any words, formed or not.
pub fn record_shard(words: &[u64]) -> Shard
    ensures { result.0 ≡ record_shard words.now }
{
    Shard(word_at(words, 1))
}

// Where the routes of n groups start.
pub fn reaches_at(n: usize) -> usize
    requires { n ≤ 48 }
    ensures { result ≡ 2 + n + 5 * n }
{
    2 + n + 5 * n
}

// How many routes the i-th group has.
pub fn reach_at(words: &[u64], i: usize) -> usize
    requires { i < 48 }
    ensures { result ≡ reach_at words.now i }
{
    size_at(words, 2 + i)
}

#[tactic(auto, using(crate::proofs::Groups::recorded))]
impl<'a> Record<'a> {
    pub fn read(words: &'a [u64]) -> Option<Record<'a>>
        ensures { MatchOption result (record_formed words.now ≡ false) (λ r. r.words.now ≡ words.now) }
    {
        if is_formed(words) {
            Some(Record { words })
        } else {
            None
        }
    }

    // How many groups there are.
    pub fn len(self) -> usize
        ensures { result ≡ group_count self.entry.words.now }
    {
        size_at(self.words, 0)
    }

    // The shard whose record it is.
    pub fn shard(self) -> Shard
        ensures { result.0 ≡ record_shard self.entry.words.now }
    {
        record_shard(self.words)
    }

    pub fn is_timed(self) -> bool
        ensures { result ≡ record_timed self.entry.words.now }
    {
        let n = self.len();
        (0..n).all(|i| group_timed(self.words, 2 + n + 5 * i))
    }

    // The transaction of the i-th group. Who asks for a group hands in its place, as for an item of a slice.
    pub fn transaction(self, i: usize) -> Transaction
        requires { i < group_count self.words.now }
        ensures { number_of result ≡ transaction_at (groups_at self.entry.words.now + group_size self.entry.words.now * i) self.entry.words.now }
    {
        let n = self.len();
        Transaction::read(self.words, 2 + n + 5 * i)
    }

    // Where the routes start.
    pub fn reaches_at(self) -> usize
        ensures { result ≡ reaches_at self.entry.words.now }
    {
        reaches_at(self.len())
    }

    // How many routes the i-th group has.
    pub fn reach_at(self, i: usize) -> usize
        requires { i < group_count self.words.now }
        ensures { result ≡ reach_at self.entry.words.now i }
    {
        reach_at(self.words, i)
    }

    // The entry that the i-th group brings back. Its routes start at a place, from which the remaining reaches fill the words.
    pub fn group(self, i: usize, at: usize) -> Entry
        requires { (i < group_count self.words.now) × (at + total itself (drop i (reach_sizes self.words.now)) ≡ length self.words.now) }
        ensures { Means (rebuilt (record_shard self.entry.words.now) (group_at self.entry.words.now i at)) result }
    {
        let n = self.len();
        let m = self.reach_at(i);
        let routes = part(self.words, at, m);
        bare(
            self.words,
            2 + n + 5 * i,
            routes,
            Part::Whole,
            Certificate::ByExecution,
            self.shard(),
        )
    }
}

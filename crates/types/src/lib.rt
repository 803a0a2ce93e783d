// Times, shards, transactions and record keys: a tuple struct around each number, so that none passes for another. Their checks,
// a shard's depth and the routes it owns, record keys and cell keys.
#![tactic(auto)]

pub mod refusal;
pub mod widths;

ghost use Rattle.std.specs.Prelude.{◌≡◌, ◌+◌, ◌≤◌, ◌++◌, true, ltb, length, drop, ◌/◌, ◌^◌, nat_le};
ghost use Rattle.std.proofs.lemmas.List.Edits.{sets};
ghost use Rattle.lists.specs.Lists.{has, self as itself};
ghost use Rattle.rules.specs.Numbers.{is_time, is_shard, is_span, depth, owns, shard_for_route, record_key, cell_key};
ghost use Rattle.rules.specs.Words.{transaction_size, transaction_at, transaction_words, transactions_in};
ghost use Rattle.types.specs.Transactions.{number_of};

use lists::slices::{contains, word_at, words_behind};

// A time in milliseconds.
#[derive(Clone, Copy, PartialEq, Eq, PartialOrd, Ord)]
pub struct Time(pub u64);

// A shard, by the path to it from the root: the highest one bit, then a bit a level.
#[derive(Clone, Copy, PartialEq, Eq, PartialOrd, Ord)]
pub struct Shard(pub u64);

#[derive(Clone, Copy, PartialEq, Eq, PartialOrd, Ord)]
pub struct Transaction(pub u64);

// Where a crossing's record is kept.
#[derive(Clone, Copy, PartialEq, Eq, PartialOrd, Ord)]
pub struct RecordKey(pub u64);

pub fn is_time(n: u64) -> bool
    ensures { result ≡ is_time n }
{
    n < 0x1_0000_0000_0000
}

pub fn is_shard(n: u64) -> bool
    ensures { result ≡ is_shard n }
{
    1 <= n && n < 0x2_0000_0000
}

pub fn is_span(n: u64) -> bool
    ensures { result ≡ is_span n }
{
    1 <= n && n <= 0x100_0000_0000
}

impl Time {
    // Whether it lies before the end of a span from a start on. A sum past the largest word is past every time.
    pub fn is_before(self, start: Time, span: u64) -> bool
        ensures { result ≡ ltb self.0 (start.0 + span) }
    {
        match start.0.checked_add(span) {
            Some(end) => self.0 < end,
            None => true,
        }
    }
}

impl Transaction {
    // The one that stands at a place of the words, those past the end as 0.
    pub fn read(words: &[u64], at: usize) -> Transaction
        ensures { number_of result ≡ transaction_at at words.now }
    {
        Transaction(word_at(words, at))
    }

    // The words behind the one that they begin with.
    pub fn behind(words: &[u64]) -> &[u64]
        ensures { result.now ≡ drop transaction_size words.now }
    {
        words_behind(words, 1)
    }

    // Its words put down at a place.
    pub fn put(self, words: &mut [u64], at: usize)
        requires { at + transaction_size ≤ length words.old }
        ensures { words.new ≡ sets words.old at (transaction_words (number_of self)) }
    {
        words[at] = self.0;
    }

    // An item put down at a place: its words, and then a row of others.
    #[tactic(auto, using(crate::proofs::Items::words_put))]
    pub fn put_item(self, row: &[u64], words: &mut [u64], at: usize)
        requires { at + transaction_size + length row.now ≤ length words.old }
        ensures { words.new ≡ sets words.old at (transaction_words (number_of self) ++ row.now) }
    {
        self.put(words, at);
        let from = at + 1;
        words[from..from + row.len()].copy_from_slice(row);
    }

    // Whether it is one of those that the words are.
    pub fn is_among(self, words: &[u64]) -> bool
        ensures { result ≡ has itself (number_of self) (transactions_in words.now) }
    {
        contains(words, self.0)
    }
}

impl Shard {
    // How far below the root the shard lies; of a number that is no shard what the definition says, 0 or 32.
    pub fn depth(self) -> u32
        ensures { result ≡ depth self.0 }
    {
        (63 - self.0.max(1).leading_zeros()).min(32)
    }

    // Whether the route's top bits are the shard's path: led by a one bit the route is compared in one shift by what is not depth, and
    // the root, which owns all, is no case of its own. The definition says yes of 0, which is no shard.
    pub fn owns(self, route: u64) -> bool
        ensures { result ≡ owns self.0 route }
    {
        self.0 == 0 || (led(route) >> (63 - self.depth())) == self.0
    }
}

// The route with a one bit put in front, its last bit lost: one shift compares it with a shard of any depth.
pub fn led(route: u64) -> u64
    ensures { result ≡ route / 2 + 2 ^ 63 }
{
    (route >> 1) + 0x8000_0000_0000_0000
}

// The shard that a trie of uniform depth d has for a route.
pub fn shard_for_route(d: u32, route: u64) -> Shard
    requires { nat_le d 32 ≡ true }
    ensures { result.0 ≡ shard_for_route d route }
{
    Shard(led(route) >> (63 - d))
}

// The key of the record that a crossing's id is kept under.
pub fn record_key(id: u64) -> RecordKey
    ensures { result.0 ≡ record_key id }
{
    RecordKey(id % 0x1_0000_0000)
}

// The key of the cell in which a shard notes that it committed a transaction.
pub fn cell_key(tx: Transaction, end: Time, shard: Shard) -> u64
    ensures { result ≡ cell_key (number_of tx) end.0 shard.0 }
{
    tx.0.wrapping_add(end.0).wrapping_add(shard.0)
}

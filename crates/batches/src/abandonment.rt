// Abandonment record: what a shard's abandonment names, and what it brings back.
ghost use Rattle.std.specs.Prelude.{◌≡◌, [], ◌≤◌, length, take, IfOk};
ghost use Rattle.lists.specs.Lists.{has, self as itself};
ghost use Rattle.rules.specs.Plain.{with_counts};
ghost use Rattle.rules.specs.Calls.{counted, after_abandonment};
ghost use Rattle.rules.specs.Words.{group_count};
ghost use Rattle.store.specs.Counts.{counts_in};
ghost use Rattle.store.specs.Roster.{keys_of};
ghost use Rattle.ledger.specs.Contents.{Held, Became, contents};
ghost use Rattle.ledger.specs.Meets.{Meets, saying};
ghost use Rattle.types.specs.Refusals.{refused_in};
ghost use Rattle.batches.specs.Abandoned.{transactions, new_to, refusal_by, Countable};
ghost use Rattle.types.specs.Transactions.{number_of};

use ledger::{Ledger, Said};
use store::roster::Roster;
use types::refusal::Refusal;
use types::{Shard, Transaction, is_shard};
use words::record::Record;

// Whether one of the first n groups is of the transaction.
fn is_among(groups: Record<'_>, n: usize, tx: Transaction) -> bool
    requires { n ≤ group_count groups.words.now }
    ensures { result ≡ has itself (number_of tx) (take n (transactions groups.entry.words.now)) }
{
    (0..n).any(|i| groups.transaction(i) == tx)
}

// How many distinct transactions are not yet owed: a group counts if no earlier one is of its transaction. A filter would be no plainer,
// since two tests pass a group by, each for its own reason.
fn count_new(roster: &Roster, groups: Record<'_>) -> usize
    ensures { result ≡ length (new_to (keys_of roster.now) (transactions groups.entry.words.now)) }
{
    let mut count = 0;
    for i in 0..groups.len() {
        let tx = groups.transaction(i);
        let None = roster.find(tx) else {
            continue;
        };
        if is_among(groups, i, tx) {
            continue;
        }
        count += 1;
    }
    count
}

// The words of a record and the room that they ask for, by the table.
fn check<'a>(ledger: &Ledger, words: &'a [u64]) -> Result<Record<'a>, Refusal>
    ensures refused { refused_in result ≡ refusal_by (keys_of ledger.now.roster) (counts_in ledger.now.counts) words.now }
    ensures read { IfOk result (λ r. r.words.now ≡ words.now) }
{
    let Some(groups) = Record::read(words) else {
        return Err(Refusal::Malformed);
    };
    if !groups.is_timed() {
        return Err(Refusal::NoTime);
    }
    let shard = groups.shard();
    if !is_shard(shard.0) {
        return Err(Refusal::NoShard);
    }
    let new = count_new(&ledger.roster, groups);
    let is_full = 48 - ledger.roster.len < new;
    if is_full {
        return Err(Refusal::EntriesFull);
    }
    if ledger.counts.is_full_for(shard, new as u64) {
        return Err(Refusal::CountsFull);
    }
    Ok(groups)
}

// What a record rebuilt counted with its shard.
fn count_rebuilt(ledger: &mut Ledger, shard: Shard, n: u64)
    requires { Countable shard.0 n ledger.old }
    ensures { Became (with_counts (counted shard.0 n (contents ledger.old).counts) (contents ledger.old)) ledger.new }
{
    ledger.counts.add(shard, n);
}

// Notes what a record abandons, and answers how many entries were rebuilt. Group by group: an owed entry takes the shard's name, any
// other is rebuilt and put in. What was rebuilt is counted with the shard.
pub fn record_abandonment(ledger: &mut Ledger, words: &[u64]) -> Said
    requires { Held ledger.old }
    ensures { Meets (after_abandonment words.now (contents ledger.old)) [] [] (saying result ledger.new) }
{
    let groups = check(ledger, words)?;
    let shard = groups.shard();
    let mut at = groups.reaches_at();
    let mut rebuilt: u64 = 0;
    for i in 0..groups.len() {
        let tx = groups.transaction(i);
        match ledger.roster.find(tx) {
            Some(k) => {
                let slot = ledger.roster.slots[k];
                ledger.entries[slot].departed_by = shard;
            }
            None => {
                let e = groups.group(i, at);
                let slot = ledger.roster.slots[ledger.roster.len];
                let k = ledger.roster.rank(tx);
                ledger.roster.insert_at(k, tx);
                ledger.entries[slot] = e;
                rebuilt += 1;
            }
        }
        at += groups.reach_at(i);
    }
    count_rebuilt(ledger, shard, rebuilt);
    Ok([rebuilt, 0, 0])
}

// Several transactions let go at once, by flags that say who stays: what closes and prune do to the index.
ghost use Rattle.std.specs.Prelude.{◌≡◌, ◌≤◌, take};
ghost use Rattle.lists.specs.Front.{held};
ghost use Rattle.store.specs.Roster.{keys_of};
ghost use Rattle.store.specs.Fronts.{InFront, front_pairs};
ghost use Rattle.store.specs.Issuers.{Holds, pairs_in};
ghost use Rattle.store.specs.Leaving.{unnamed_by, dropped_by};

use crate::issuers::{Issuers, flags_of, retain_pairs};
use crate::roster::Roster;
use lists::front::Front;

// Those whose flag is down.
fn dropped_from(roster: Roster, stay: [bool; 48]) -> Front<u64, 48>
    ensures { held result ≡ dropped_by (take roster.len stay) (keys_of roster) }
{
    let mut gone = Front::new(0);
    // By place: flags and keys lie side by side.
    for i in 0..roster.len {
        if !stay[i] {
            gone.push(roster.keys[i]);
        }
    }
    gone
}

// Of any pairs at the front of two arrays, whatever their order, those that are left without those whose flag is down; how many they are.
// Few leave at a time, so each pair is looked for among them; mostly nobody does, and the pairs are not gone through.
pub fn drop_pairs(
    records: &mut [u64; 384],
    transactions: &mut [u64; 384],
    n: usize,
    roster: Roster,
    stay: [bool; 48],
) -> usize
    requires { n ≤ 384 }
    ensures { InFront (unnamed_by (take roster.len stay) (keys_of roster) (front_pairs records.old transactions.old n)) records.new transactions.new result }
{
    let gone = dropped_from(roster, stay);
    if gone.len == 0 {
        return n;
    }
    let left = flags_of(transactions, n, |tx| !tx.is_among(gone.as_slice()));
    retain_pairs(records, transactions, n, &left)
}

// The same of an index, in place: two of its arrays are lent at once, which a local's may not be.
fn drop_from(issuers: &mut Issuers, roster: Roster, stay: [bool; 48])
    ensures { Holds (unnamed_by (take roster.len stay) (keys_of roster) (pairs_in issuers.old)) issuers.new }
{
    issuers.len = drop_pairs(
        &mut issuers.records,
        &mut issuers.transactions,
        issuers.len,
        roster,
        stay,
    );
}

// The index without the pairs of those whose flag is down. Where nobody leaves it is handed back as it came, since a copy to change would
// cost more than all else.
pub fn without_dropped(issuers: Issuers, roster: Roster, stay: [bool; 48]) -> Issuers
    ensures { Holds (unnamed_by (take roster.len stay) (keys_of roster) (pairs_in issuers)) result }
{
    let gone = dropped_from(roster, stay);
    if gone.len == 0 {
        return issuers;
    }
    let mut x = issuers;
    drop_from(&mut x, roster, stay);
    x
}

// The owed transactions in rising order, each with the slot in which its entry lies. Entries never move: putting one in or letting
// one go shifts numbers only. The slots not in use stand behind those in use, so that all forty-eight are always there once.
ghost use Rattle.std.specs.Prelude.{◌≡◌, ◌≤◌, ◌<◌, length, take};
ghost use Rattle.lists.specs.Lists.{all, Every};
ghost use Rattle.lists.specs.Arrays.{place, rank, Distinct};
ghost use Rattle.store.specs.Props.{Below-prop, Distinct-prop};

use lists::{fronts, sorted};
use types::Transaction;

// Sorted arrays of fixed memory with their length, since the ledger has no heap. Two arrays: keys are searched as numbers, and behind
// the slots in use stand those without a key.
#[derive(Clone, Copy)]
pub struct Roster {
    pub keys: [u64; 48],
    pub slots: [usize; 48],
    pub len: usize,
    pub ghost room: { len ≤ 48 },
    pub ghost lengths: { (length keys ≡ 48) × (length slots ≡ 48) },
    pub ghost within: { Every (λ s. s < 48) slots } by { Below-prop 48 slots },
    pub ghost distinct: { Distinct slots } by { Distinct-prop slots },
}

const SLOTS: [usize; 48] = [
    0, 1, 2, 3, 4, 5, 6, 7, 8, 9, 10, 11, 12, 13, 14, 15, 16, 17, 18, 19, 20, 21, 22, 23, 24, 25,
    26, 27, 28, 29, 30, 31, 32, 33, 34, 35, 36, 37, 38, 39, 40, 41, 42, 43, 44, 45, 46, 47,
];

impl Roster {
    ghost use Rattle.store.specs.Roster.{SlotOf, Fresh, Inserted, Removed, Retained, keys_of, is, below};
    ghost use Rattle.types.specs.Transactions.{number_of};

    pub fn new() -> Roster
        ensures { Fresh result }
    {
        Roster {
            keys: [0; 48],
            slots: SLOTS,
            len: 0,
        }
    }

    // Where the transaction stands.
    pub fn find(&self, tx: Transaction) -> Option<usize>
        ensures { result ≡ place (is (number_of tx)) 0 (keys_of self.now) }
    {
        self.keys[..self.len].iter().position(|k| *k == tx.0)
    }

    // The slot in which the transaction's entry lies.
    pub fn slot_of(&self, tx: Transaction) -> Option<usize>
        ensures { SlotOf self.now (number_of tx) result }
    {
        let Some(k) = self.find(tx) else {
            return None;
        };
        Some(self.slots[k])
    }

    // How many stand before the transaction: where it is to be put in.
    pub fn rank(&self, tx: Transaction) -> usize
        ensures { result ≡ rank (below (number_of tx)) (keys_of self.now) }
    {
        sorted::rank(&self.keys[..self.len], |k| *k < tx.0)
    }

    // Whether the transaction is above all that are owed.
    pub fn is_last(&self, tx: Transaction) -> bool
        ensures { result ≡ all (below (number_of tx)) (keys_of self.now) }
    {
        self.rank(tx) == self.len
    }

    // The transaction put in at a place, with the first slot that is not in use. This and letting go are done in place, so that nothing is
    // copied.
    pub fn insert_at(&mut self, k: usize, tx: Transaction)
        requires { (k ≤ self.old.len) × (self.old.len < 48) }
        ensures { Inserted self.old k (number_of tx) self.new }
    {
        let n = self.len;
        let slot = self.slots[n];
        fronts::insert_at(&mut self.keys, n, k, tx.0);
        fronts::insert_at(&mut self.slots, n, k, slot);
        self.len = n + 1;
    }

    // What stands at a place let go: its slot goes behind those in use.
    pub fn remove_at(&mut self, k: usize)
        requires { k < self.old.len }
        ensures { Removed self.old k self.new }
    {
        let n = self.len;
        let slot = self.slots[k];
        fronts::remove_at(&mut self.keys, n, k);
        fronts::remove_at(&mut self.slots, n, k);
        self.slots[n - 1] = slot;
        self.len = n - 1;
    }

    // Those whose flag is up, in their order; the slots of the others go behind them.
    pub fn retain(self, stay: [bool; 48]) -> Roster
        ensures { Retained self (take self.len stay) result }
    {
        let mut r = self;
        let mut w = 0;
        // A loop of its own: a slot that is let go is swapped behind those in use, which fronts::retain would lose.
        for i in 0..self.len {
            if stay[i] {
                r.keys[w] = r.keys[i];
                r.slots.swap(i, w);
                w += 1;
            }
        }
        r.len = w;
        r
    }
}

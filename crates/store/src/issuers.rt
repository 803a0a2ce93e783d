// The issuer index: which owed transactions issued the record at a key, as pairs by record and then transaction, none twice.
ghost use Rattle.std.specs.Fn.{FnReturns};
ghost use Rattle.std.specs.Prelude.{◌≡◌, ◌≤◌, ◌<◌, ◌^◌, length, take};
ghost use Rattle.lists.specs.Lists.{Every, Ascending, zip_by, keep_by};
ghost use Rattle.rules.specs.Index.{pair_key};
ghost use Rattle.types.specs.Transactions.{number_of};
ghost use Rattle.store.specs.Props.{Below-prop, Ascending-prop};
ghost use Rattle.store.specs.Stored.{pair, is_pair, leads_pair};
ghost use Rattle.store.specs.Fronts.{InFront, Flags, front_pairs};

use lists::fronts;
use types::{RecordKey, Transaction};

// Two arrays of fixed memory side by side with their length: the paper's form of the index.
#[derive(Clone, Copy)]
pub struct Issuers {
    pub records: [u64; 384],
    pub transactions: [u64; 384],
    pub len: usize,
    pub ghost room: { len ≤ 384 },
    pub ghost lengths: { (length records ≡ 384) × (length transactions ≡ 384) },
    pub ghost rising: { Ascending pair_key (zip_by pair (take len records) (take len transactions)) } by { Ascending-prop pair_key (zip_by pair (take len records) (take len transactions)) },
    pub ghost words: { Every (λ t. t < 2 ^ 64) (take len transactions) } by { Below-prop (2 ^ 64) (take len transactions) },
}

// Whether the pair (a, b) stands before (r, t): by record, then by transaction. This and the next are a line over derived operators, whose
// contract says the rule by its name.
fn leads(a: RecordKey, b: Transaction, r: RecordKey, t: Transaction) -> bool
    ensures { result ≡ leads_pair a.0 (number_of b) r.0 (number_of t) }
{
    (a, b) < (r, t)
}

// Whether the pair (a, b) is (r, t).
fn is_pair(a: RecordKey, b: Transaction, r: RecordKey, t: Transaction) -> bool
    ensures { result ≡ is_pair r.0 (number_of t) (pair a.0 (number_of b)) }
{
    (a, b) == (r, t)
}

// Of any pairs at the front of two arrays, whatever their order, those whose flag is up, in their order; how many they are.
pub fn retain_pairs(
    records: &mut [u64; 384],
    transactions: &mut [u64; 384],
    n: usize,
    stay: &[bool; 384],
) -> usize
    requires { n ≤ 384 }
    ensures { InFront (keep_by (take n stay.now) (front_pairs records.old transactions.old n)) records.new transactions.new result }
{
    fronts::retain(records, &stay[..n]);
    fronts::retain(transactions, &stay[..n])
}

// Of each of the first n transactions, whether it passes.
pub fn flags_of<F: Fn(Transaction) -> bool>(
    transactions: &[u64; 384],
    n: usize,
    stays: F,
) -> [bool; 384]
    requires { (n ≤ 384) × ((t : _) → F.pre stays t) }
    ensures { Flags (λ t. FnReturns F.Fn stays (t, tt)) (take n transactions.now) (take n result) }
{
    let mut stay = [false; 384];
    // By place: each flag stands beside its transaction.
    for i in 0..n {
        let tx = Transaction(transactions[i]);
        stay[i] = stays(tx);
    }
    stay
}

impl Issuers {
    ghost use Rattle.std.specs.Prelude.{[]};
    ghost use Rattle.lists.specs.Lists.{keep, include};
    ghost use Rattle.lists.specs.Arrays.{rank};
    ghost use Rattle.rules.specs.Index.{names};
    ghost use Rattle.store.specs.Issuers.{Holds, Retains, pairs_in, is_not, is_before, room_for};

    pub fn new() -> Issuers
        ensures { Holds [] result }
    {
        Issuers {
            records: [0; 384],
            transactions: [0; 384],
            len: 0,
        }
    }

    // How many pairs stand before (r, t), by halves: the library's search takes one slice, and these are two.
    fn rank(&self, r: RecordKey, t: Transaction) -> usize
        ensures { result ≡ rank (is_before r.0 (number_of t)) (pairs_in self.now) }
    {
        let mut low = 0;
        let mut high = self.len;
        while low < high {
            let mid = (low + high) / 2;
            let record = RecordKey(self.records[mid]);
            let tx = Transaction(self.transactions[mid]);
            if leads(record, tx, r, t) {
                low = mid + 1;
            } else {
                high = mid;
            }
        }
        low
    }

    // Whether the pair that ranks at k stands there.
    fn stands_at(&self, k: usize, r: RecordKey, t: Transaction) -> bool
        requires { k ≡ rank (is_before r.0 (number_of t)) (pairs_in self.now) }
        ensures { result ≡ names (pairs_in self.now) r.0 (number_of t) }
    {
        k < self.len
            && is_pair(
                RecordKey(self.records[k]),
                Transaction(self.transactions[k]),
                r,
                t,
            )
    }

    // Whether the transaction is named under the record.
    pub fn names(&self, r: RecordKey, t: Transaction) -> bool
        ensures { result ≡ names (pairs_in self.now) r.0 (number_of t) }
    {
        let k = self.rank(r, t);
        self.stands_at(k, r, t)
    }

    // The pair put in, unless it stands already. This and taking out are done in place, so that nothing is copied.
    pub fn name(&mut self, r: RecordKey, t: Transaction)
        requires { room_for self.old r.0 (number_of t) }
        ensures { Holds (include pair_key (pair r.0 (number_of t)) (pairs_in self.old)) self.new }
    {
        let k = self.rank(r, t);
        if self.stands_at(k, r, t) {
            return;
        }
        fronts::insert_at(&mut self.records, self.len, k, r.0);
        fronts::insert_at(&mut self.transactions, self.len, k, t.0);
        self.len += 1;
    }

    // Those whose flag is up, in their order.
    pub fn retain_flagged(&mut self, stay: &[bool; 384])
        ensures { Holds (keep_by (take self.old.len stay.now) (pairs_in self.old)) self.new }
    {
        self.len = retain_pairs(&mut self.records, &mut self.transactions, self.len, stay);
    }

    // Those whose transaction passes, in their order.
    pub fn retain<F: Fn(Transaction) -> bool>(&mut self, stays: F)
        requires { (t : _) → F.pre stays t }
        ensures { Retains (λ t. FnReturns F.Fn stays (t, tt)) self.old self.new }
    {
        let stay = flags_of(&self.transactions, self.len, stays);
        self.retain_flagged(&stay);
    }

    // The pairs of a transaction taken out.
    pub fn unname(&mut self, t: Transaction)
        ensures { Holds (keep (is_not (number_of t)) (pairs_in self.old)) self.new }
    {
        self.retain(|other| other != t);
    }
}

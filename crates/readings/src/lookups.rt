// Lookups: each answers a number, or yes and no, and no for a transaction that is not owed.
ghost use Rattle.std.specs.Prelude.{◌≡◌, ◌&&◌, [], eqb, ltb, leb, ◌+◌};
ghost use Rattle.std.specs.Fn.{FnReturnsAt};
ghost use Rattle.rules.specs.Numbers.{is_time};
ghost use Rattle.rules.specs.Readings.{read, open_at, answers, abandonment_answers, abandonment, covered, departed, executed, reaches_beyond, issued_by, local, rebuilt, leaf_for_route, question, question_refusal};
ghost use Rattle.entry.specs.Entry.{plain_entry};
ghost use Rattle.ledger.specs.Contents.{contents, Held};
ghost use Rattle.readings.specs.Reads.{Reads, LooksUp};
ghost use Rattle.types.specs.Refusals.{refused_in};
ghost use Rattle.types.specs.Transactions.{number_of};

use entry::{Certificate, Entry};
use ledger::Ledger;
use trees::Halves;
use types::refusal::Refusal;
use types::{RecordKey, Shard, Time, Transaction, is_shard};

// A question as it is handed in: of a shard's cell, about a transaction with this deadline.
#[derive(Clone, Copy)]
pub struct Question {
    pub tx: Transaction,
    pub shard: Shard,
    pub key: u64,
    pub at: Time,
    pub end: Time,
}

// A core without a certificate by execution, which no record names.
#[tactic(auto, unfolding(entry::specs::Entry::plain_entry))]
fn is_abandonable(e: &Entry) -> bool
    ensures { result ≡ abandonment_answers (plain_entry e.now) }
{
    e.is_awaiting() && e.departed_by.0 == 0
}

// Whether the transaction's entry passes, yes as 1 and no as 0; no for one that is not owed.
fn look_up<F: Fn(&Entry) -> bool>(
    ledger: &Ledger,
    tx: Transaction,
    passes: F,
) -> Result<u64, Refusal>
    requires held { Held ledger.now }
    requires callable { (e : _) → F.pre passes e }
    ensures { LooksUp (FnReturnsAt F.Fn passes) (contents ledger.now) (number_of tx) result }
{
    let Some(slot) = ledger.roster.slot_of(tx) else {
        return Ok(0);
    };
    Ok(u64::from(passes(&ledger.entries[slot])))
}

// Whether the entry may be abandoned.
pub fn abandonment_answers(ledger: &Ledger, tx: Transaction) -> Result<u64, Refusal>
    requires { Held ledger.now }
    ensures { Reads (read (abandonment (number_of tx)) (contents ledger.now)) [] [] result }
{
    look_up(ledger, tx, is_abandonable)
}

// Whether a record names the entry or it has an absence.
pub fn is_covered(ledger: &Ledger, tx: Transaction) -> Result<u64, Refusal>
    requires { Held ledger.now }
    ensures { Reads (read (covered (number_of tx)) (contents ledger.now)) [] [] result }
{
    look_up(ledger, tx, |e| e.covered())
}

// Whether a record names the entry.
pub fn departed(ledger: &Ledger, tx: Transaction) -> Result<u64, Refusal>
    requires { Held ledger.now }
    ensures { Reads (read (departed (number_of tx)) (contents ledger.now)) [] [] result }
{
    look_up(ledger, tx, |e| e.departed_by.0 > 0)
}

// Whether the entry's certificate is by execution.
pub fn executed(ledger: &Ledger, tx: Transaction) -> Result<u64, Refusal>
    requires { Held ledger.now }
    ensures { Reads (read (executed (number_of tx)) (contents ledger.now)) [] [] result }
{
    look_up(ledger, tx, |e| e.certified == Certificate::ByExecution)
}

// Whether local does not own some route of the entry.
pub fn reaches_beyond(ledger: &Ledger, tx: Transaction) -> Result<u64, Refusal>
    requires { Held ledger.now }
    ensures { Reads (read (reaches_beyond (number_of tx)) (contents ledger.now)) [] [] result }
{
    look_up(ledger, tx, |e| e.reaches_beyond(ledger.local))
}

// Whether the index names the transaction under the record.
pub fn issued_by(ledger: &Ledger, r: RecordKey, tx: Transaction) -> Result<u64, Refusal>
    requires { Held ledger.now }
    ensures { Reads (read (issued_by r.0 (number_of tx)) (contents ledger.now)) [] [] result }
{
    Ok(u64::from(ledger.issuers.names(r, tx)))
}

pub fn local(ledger: &Ledger) -> Result<u64, Refusal>
    requires { Held ledger.now }
    ensures { Reads (read local (contents ledger.now)) [] [] result }
{
    Ok(ledger.local.0)
}

// How many entries were rebuilt in all.
pub fn rebuilt(ledger: &Ledger) -> Result<u64, Refusal>
    requires { Held ledger.now }
    ensures { Reads (read rebuilt (contents ledger.now)) [] [] result }
{
    Ok(ledger.counts.sum())
}

impl Question {
    fn are_times(self, time: Time) -> bool
        ensures { result ≡ is_time self.at.0 && is_time self.end.0 && is_time time.0 }
    {
        types::is_time(self.at.0) && types::is_time(self.end.0) && types::is_time(time.0)
    }

    // The question's numbers and a clock, by the table.
    fn check(self, time: Time) -> Result<(), Refusal>
        ensures { refused_in result ≡ question_refusal (question 0 self.shard.0 0 self.at.0 self.end.0) time.0 }
    {
        if !self.are_times(time) {
            return Err(Refusal::NoTime);
        }
        if !is_shard(self.shard.0) {
            return Err(Refusal::NoShard);
        }
        Ok(())
    }
}

// Whether a question is open: once its at has passed. It asks nothing of the ledger.
pub fn open_at(ledger: &Ledger, q: Question, time: Time) -> Result<u64, Refusal>
    requires { Held ledger.now }
    ensures { Reads (read (open_at (number_of q.tx) q.shard.0 q.key q.at.0 q.end.0 time.0) (contents ledger.now)) [] [] result }
{
    q.check(time)?;
    Ok(u64::from(q.at <= time))
}

// Read absent, in the window [at, at + span). What was read is the word as it comes in.
fn is_absent(at: Time, span: u64, read_at: Time, inclusion: u64) -> bool
    ensures { result ≡ eqb inclusion 0 && (leb at.0 read_at.0 && ltb read_at.0 (at.0 + span)) }
{
    inclusion == 0 && (at <= read_at && read_at.is_before(at, span))
}

// Whether what was read (0 absent, 1 present) answers the question: absent, in its own window, its transaction owed.
pub fn answers(ledger: &Ledger, q: Question, read_at: Time, inclusion: u64) -> Result<u64, Refusal>
    requires { Held ledger.now }
    ensures { Reads (read (answers (number_of q.tx) q.shard.0 q.key q.at.0 q.end.0 read_at.0 inclusion) (contents ledger.now)) [] [] result }
{
    if inclusion > 1 {
        return Err(Refusal::Malformed);
    }
    q.check(read_at)?;
    if !is_absent(q.at, ledger.core_span, read_at, inclusion) {
        return Ok(0);
    }
    let Some(_) = ledger.roster.find(q.tx) else {
        return Ok(0);
    };
    Ok(1)
}

// The leaf of a route in the tree of these marks. It asks nothing of the ledger.
pub fn leaf_for_route(ledger: &Ledger, route: u64, marks: &[u64]) -> Result<u64, Refusal>
    requires { Held ledger.now }
    ensures { Reads (read (leaf_for_route route marks.now) (contents ledger.now)) [] [] result }
{
    let mut tree = Halves::new();
    tree.read(marks)?;
    Ok(tree.leaf_of(marks, route).0)
}

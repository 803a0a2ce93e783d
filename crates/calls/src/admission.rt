// Admission: a committed transaction taken in.
ghost use Rattle.std.specs.Prelude.{◌≡◌, [], IfOk};
ghost use Rattle.lists.specs.Lists.{include};
ghost use Rattle.rules.specs.Plain.{transaction_of, with_entries};
ghost use Rattle.rules.specs.Calls.{after_admission};
ghost use Rattle.entry.specs.Entry.{plain_entry};
ghost use Rattle.store.specs.Issuers.{Holds};
ghost use Rattle.ledger.specs.Contents.{Held, Became, contents};
ghost use Rattle.ledger.specs.Meets.{Meets, saying};
ghost use Rattle.types.specs.Refusals.{refused_in};
ghost use Rattle.calls.specs.Naming.{Nameable, with_pairs, Enters};
ghost use Rattle.calls.specs.Refusals.{words_refusal};

use entry::Entry;
use ledger::{Ledger, Said};
use store::issuers::Issuers;
use types::refusal::Refusal;
use types::{Shard, record_key};
use words::admission::Admission;

// The entry named under each record that it issued, from its last edge to its first; by place, since two arrays are gone through backwards.
// The index is lent, so that nothing of it is copied.
fn name_issued(issuers: &mut Issuers, e: &Entry, local: Shard)
    requires { Nameable issuers.old e.now local.0 }
    ensures { Holds (with_pairs local.0 e.now issuers.old) issuers.new }
{
    for i in (0..e.edges_len as usize).rev() {
        if e.froms[i] == local.0 {
            issuers.name(record_key(e.ids[i]), e.tx);
        }
    }
}

// The entry of a transaction that is not owed put in: it lies in the first slot that is free, and is named under the records that it issued.
pub fn take_in(ledger: &mut Ledger, e: &Entry)
    requires { Enters e.now ledger.old }
    ensures { Became (with_entries (include transaction_of (plain_entry e.now) (contents ledger.old).entries) (contents ledger.old)) ledger.new }
{
    let slot = ledger.roster.slots[ledger.roster.len];
    let k = ledger.roster.rank(e.tx);
    ledger.roster.insert_at(k, e.tx);
    name_issued(&mut ledger.issuers, e, ledger.local);
    ledger.entries[slot] = *e;
}

// The words of an admission, by the table.
pub fn check(words: &[u64]) -> Result<Admission<'_>, Refusal>
    ensures refused { refused_in result ≡ words_refusal words.now }
    ensures read { IfOk result (λ a. a.parts.words.now ≡ words.now) }
{
    let Some(admission) = Admission::read(words) else {
        return Err(Refusal::Malformed);
    };
    if !admission.is_timed() {
        return Err(Refusal::NoTime);
    }
    if !admission.is_placed() {
        return Err(Refusal::NoShard);
    }
    Ok(admission)
}

// Takes a transaction in, and answers 1; one that is owed already is skipped and answers 0.
pub fn register_committed(ledger: &mut Ledger, words: &[u64]) -> Said
    requires { Held ledger.old }
    ensures { Meets (after_admission words.now (contents ledger.old)) [] [] (saying result ledger.new) }
{
    let admission = check(words)?;
    let tx = admission.transaction();
    let None = ledger.roster.find(tx) else {
        return Ok([0; 3]);
    };
    let is_full = 48 <= ledger.roster.len;
    if is_full {
        return Err(Refusal::EntriesFull);
    }
    let e = admission.entry(ledger.local);
    take_in(ledger, &e);
    Ok([1, 0, 0])
}

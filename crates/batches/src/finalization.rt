// Finalization: what a committed block's verdicts resolve.
ghost use Rattle.std.specs.Prelude.{◌≡◌, not, ◌&&◌, []};
ghost use Rattle.lists.specs.Lists.{has, self};
ghost use Rattle.rules.specs.Plain.{is_core, is_settling, owes};
ghost use Rattle.rules.specs.Calls.{after_finalization};
ghost use Rattle.rules.specs.Words.{deciding};
ghost use Rattle.entry.specs.Entry.{plain_entry, plain_part};
ghost use Rattle.ledger.specs.Contents.{Held, contents};
ghost use Rattle.ledger.specs.Meets.{Meets, saying};
ghost use Rattle.batches.specs.Rulings.{ruled_by, ruled_on};
ghost use Rattle.words.specs.Lines.{plain_line};
ghost use Rattle.types.specs.Transactions.{number_of};

use entry::{Entry, Part};
use ledger::{Ledger, Said};
use types::refusal::Refusal;
use types::{Shard, Transaction};
use words::finalization::{Finalization, Line};

// What a line does with the entry that it names; Refused for a code that is none of the three.
#[derive(Clone, Copy)]
pub enum Ruling {
    Skip,
    Resolve,
    Release,
    Refused,
}

// By a line's decision code: 1 is Accept, 2 Aborted, 3 any other.
fn decide(code: u64, is_open: bool, is_owing: bool) -> Ruling
    ensures { result ≡ ruled_by code is_open is_owing }
{
    match code {
        1 => if is_open {
            Ruling::Skip
        } else if is_owing {
            Ruling::Resolve
        } else {
            Ruling::Release
        },
        2..=3 => if is_open {
            Ruling::Skip
        } else {
            Ruling::Release
        },
        0 | 4..=0xffff_ffff_ffff_ffff => Ruling::Refused,
    }
}

// Whether the part waits for a settlement that these lines do not decide.
fn is_open(finalization: Finalization<'_>, tx: Transaction, part: Part) -> bool
    ensures { result ≡ is_settling (plain_part part) && not (has self (number_of tx) (deciding finalization.entry.words.now)) }
{
    part.is_settling() && !finalization.is_deciding(tx)
}

// Whether it is a core with an owed edge from local.
fn is_owing(e: &Entry, local: Shard) -> bool
    ensures { result ≡ is_core (plain_entry e.now).part && owes local.0 (plain_entry e.now).terms }
{
    e.part.is_core() && e.owes(local)
}

// What a line does with its transaction's entry.
fn rule(finalization: Finalization<'_>, line: Line, e: &Entry, local: Shard) -> Ruling
    ensures { result ≡ ruled_on local.0 (deciding finalization.entry.words.now) (plain_line line) (plain_entry e.now) }
{
    let open = is_open(finalization, line.tx, e.part);
    let owing = is_owing(e, local);
    decide(line.code, open, owing)
}

// Line by line, skips, turns to remainder or releases the entry that the line names, and answers how many were released.
pub fn release_resolved(ledger: &mut Ledger, words: &[u64]) -> Said
    requires { Held ledger.old }
    ensures { Meets (after_finalization words.now (contents ledger.old)) [] [] (saying result ledger.new) }
{
    let Some(finalization) = Finalization::read(words) else {
        return Err(Refusal::Malformed);
    };
    let mut released: u64 = 0;
    for i in 0..finalization.len() {
        let line = finalization.line(i);
        let Some(k) = ledger.roster.find(line.tx) else {
            continue;
        };
        let slot = ledger.roster.slots[k];
        match rule(finalization, line, &ledger.entries[slot], ledger.local) {
            Ruling::Skip => {}
            Ruling::Resolve => ledger.entries[slot].resolve(),
            Ruling::Release => {
                ledger.roster.remove_at(k);
                ledger.issuers.unname(line.tx);
                released += 1;
            }
            Ruling::Refused => {} // never: the words are formed
        }
    }
    Ok([released, 0, 0])
}

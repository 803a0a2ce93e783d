// Settled and returned: a record of a leg or a remainder marked.
ghost use Rattle.std.specs.Prelude.{true, false, []};
ghost use Rattle.rules.specs.Calls.{after_mark};
ghost use Rattle.ledger.specs.Contents.{Held, contents};
ghost use Rattle.ledger.specs.Meets.{Meets, saying};
ghost use Rattle.types.specs.Transactions.{number_of};

use ledger::{Ledger, Said};
use types::{RecordKey, Transaction};

// The record marked; only an issued record of a leg or a remainder takes a mark.
fn mark(ledger: &mut Ledger, r: RecordKey, tx: Transaction, is_return: bool) -> Said
    requires { Held ledger.old }
    ensures { Meets (after_mark r.0 (number_of tx) is_return (contents ledger.old)) [] [] (saying result ledger.new) }
{
    let Some(slot) = ledger.roster.slot_of(tx) else {
        return Ok([0; 3]);
    };
    // Copied out and in: an element that was not read before cannot be lent yet.
    let mut e = ledger.entries[slot];
    e.mark(ledger.local, r, is_return);
    ledger.entries[slot] = e;
    Ok([0; 3])
}

// The record was taken by its consumer.
pub fn settled(ledger: &mut Ledger, r: RecordKey, tx: Transaction) -> Said
    requires { Held ledger.old }
    ensures { Meets (after_mark r.0 (number_of tx) false (contents ledger.old)) [] [] (saying result ledger.new) }
{
    mark(ledger, r, tx, false)
}

// The record was taken back: the entry will close as aborted.
pub fn returned(ledger: &mut Ledger, r: RecordKey, tx: Transaction) -> Said
    requires { Held ledger.old }
    ensures { Meets (after_mark r.0 (number_of tx) true (contents ledger.old)) [] [] (saying result ledger.new) }
{
    mark(ledger, r, tx, true)
}

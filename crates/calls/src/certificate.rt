// Certify, and the reading of a cell as absent: what one owed entry learns.
ghost use Rattle.std.specs.Prelude.{[]};
ghost use Rattle.rules.specs.Calls.{after_certify, after_absence};
ghost use Rattle.entry.specs.Entry.{absence};
ghost use Rattle.ledger.specs.Contents.{Held, contents};
ghost use Rattle.ledger.specs.Meets.{Meets, saying};
ghost use Rattle.types.specs.Transactions.{number_of};

use entry::Certificate;
use ledger::{Ledger, Said};
use types::refusal::Refusal;
use types::{Shard, Transaction, is_shard};

// How far this shard has spoken for a transaction: the greater code is kept. The code is the word as it comes in; here it becomes a
// certificate.
pub fn certify(ledger: &mut Ledger, tx: Transaction, code: u64) -> Said
    requires { Held ledger.old }
    ensures { Meets (after_certify (number_of tx) code (contents ledger.old)) [] [] (saying result ledger.new) }
{
    let Ok(certificate) = Certificate::try_from(code) else {
        return Err(Refusal::Malformed);
    };
    let Some(slot) = ledger.roster.slot_of(tx) else {
        return Ok([0; 3]);
    };
    // Copied out and in: an element that was not read before cannot be lent yet.
    let mut e = ledger.entries[slot];
    e.certify(certificate);
    ledger.entries[slot] = e;
    Ok([0; 3])
}

// A sibling's cell was read absent: answers whether that is new.
pub fn record_absence(ledger: &mut Ledger, tx: Transaction, shard: Shard, key: u64) -> Said
    requires { Held ledger.old }
    ensures { Meets (after_absence (number_of tx) (absence shard.0 key) (contents ledger.old)) [] [] (saying result ledger.new) }
{
    if !is_shard(shard.0) {
        return Err(Refusal::NoShard);
    }
    let Some(slot) = ledger.roster.slot_of(tx) else {
        return Ok([0; 3]);
    };
    let e = &ledger.entries[slot];
    if e.is_read(shard, key) {
        return Ok([0; 3]);
    }
    let is_full = 8 <= e.absences_len;
    if is_full {
        return Err(Refusal::AbsencesFull);
    }
    ledger.entries[slot].read_absent(shard, key);
    Ok([1, 0, 0])
}

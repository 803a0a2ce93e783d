// Forget and fated: one entry let go.
ghost use Rattle.std.specs.Prelude.{[]};
ghost use Rattle.std.specs.Fn.{FnReturnsAt};
ghost use Rattle.rules.specs.Calls.{after_forget, after_fated};
ghost use Rattle.ledger.specs.Contents.{Held, contents};
ghost use Rattle.ledger.specs.Meets.{Meets, saying};
ghost use Rattle.calls.specs.Release.{Releases};
ghost use Rattle.types.specs.Transactions.{number_of};

use entry::Entry;
use ledger::{Ledger, Said};
use types::Transaction;

// A transaction whose entry passes is let go; any other stays. Whether it went.
fn let_go<F: Fn(&Entry) -> bool>(ledger: &mut Ledger, tx: Transaction, goes: F) -> bool
    requires held { Held ledger.old }
    requires callable { (e : _) → F.pre goes e }
    ensures { Releases (FnReturnsAt F.Fn goes) ledger.old (number_of tx) result ledger.new }
{
    let Some(k) = ledger.roster.find(tx) else {
        return false;
    };
    let slot = ledger.roster.slots[k];
    if !goes(&ledger.entries[slot]) {
        return false;
    }
    ledger.roster.remove_at(k);
    ledger.issuers.unname(tx);
    true
}

// Lets a transaction go with no outcome, and answers whether it was owed.
pub fn forget(ledger: &mut Ledger, tx: Transaction) -> Said
    requires { Held ledger.old }
    ensures { Meets (after_forget (number_of tx) (contents ledger.old)) [] [] (saying result ledger.new) }
{
    let answer = if let_go(ledger, tx, |_| true) { 1 } else { 0 };
    Ok([answer, 0, 0])
}

// A leg whose row a fate ends is let go as aborted, 2 in the answer's word; all else stays, 0.
pub fn fated(ledger: &mut Ledger, tx: Transaction) -> Said
    requires { Held ledger.old }
    ensures { Meets (after_fated (number_of tx) (contents ledger.old)) [] [] (saying result ledger.new) }
{
    let answer = if let_go(ledger, tx, |e| e.part.is_leg()) {
        2
    } else {
        0
    };
    Ok([answer, 0, 0])
}

// A line's call: made on its own numbers and on the front of the list that it is lent.
ghost use Rattle.ledger.specs.Contents.{Held};
ghost use Rattle.replay.specs.Lines.{Did};

use crate::replies::Reply;
use crate::{changing, reading};
use ledger::Ledger;
use script::Call;
use script::calls::{BUNDLE, DUMP, RESTORE};

// What the call does and says, made as often as is said, and once at least. By the order of the table: the makings, the changing calls up to
// `bundle`, the readings up to `dump`, of which the answer's line has what is held.
pub fn carry_out(
    ledger: &mut Ledger,
    call: Call,
    numbers: &[u64; 8192],
    lent: &mut [u64; 8192],
    times: u64,
) -> Reply
    requires { Held ledger.old }
    ensures { Did call numbers.now times ledger.old lent.old lent.new result ledger.new }
{
    let code = call.code;
    let words = &numbers[..call.count];
    let list = &mut lent[..call.lent];
    match code.place {
        ..=RESTORE => changing::renew(ledger, code, words, times),
        ..=BUNDLE => changing::apply(ledger, code, words, list, times),
        ..DUMP => reading::answer(ledger, code, words, list, times),
        _ => Ok([0; 3]),
    }
}

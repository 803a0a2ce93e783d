// The readings of a script.
ghost use Rattle.ledger.specs.Contents.{Held};
ghost use Rattle.replay.specs.Lines.{Asked, first_in};

use crate::replies::Reply;
use dispatch::reading;
use ledger::Ledger;
use script::FILL;
use script::calls::{BUNDLE, Code};
use types::refusal::Refusal;

// The reading of a code as often as is said, and once at least: each time of the same ledger and on the list filled anew. A
// kind says how far behind `bundle` the reading stands in the table.
pub fn ask(
    ledger: &Ledger,
    code: Code,
    words: &[u64],
    list: &mut [u64],
    times: u64,
) -> Result<u64, Refusal>
    requires { Held ledger.now }
    ensures { Asked code.place words.now ledger.now list.old list.new result }
{
    let kind = code.place.saturating_sub(BUNDLE) as u64;
    let mut answer = Ok(0);
    for turn in 0..times.max(1) {
        list.fill(FILL);
        answer = reading::ask(ledger, kind, words, list);
    }
    answer
}

// The same as a line's answers: what is answered is the first.
pub fn answer(ledger: &Ledger, code: Code, words: &[u64], list: &mut [u64], times: u64) -> Reply
    requires { Held ledger.now }
    ensures { Asked code.place words.now ledger.now list.old list.new (first_in result) }
{
    match ask(ledger, code, words, list, times) {
        Ok(answer) => Ok([answer, 0, 0]),
        Err(refusal) => Err(refusal),
    }
}

// A list of calls, read from words and made one after the other.
ghost use Rattle.std.specs.Prelude.{min, ◌≡◌, length};
ghost use Rattle.ledger.specs.Contents.{Held, contents};
ghost use Rattle.claim.specs.Calls.{decode, Ran};

use dispatch::changing::apply;
use ledger::Ledger;
use lists::slices::word_at;

fn at_most(n: u64, limit: usize) -> usize
    ensures { result ≡ min n limit }
{
    n.min(limit as u64) as usize
}

// The calls that the words hold, each lent the ledger, and the front of the list, as the one before left them.
pub fn run_calls(start: Ledger, calls: &[u64], lent: &mut [u64]) -> Ledger
    requires { Held start }
    ensures { Ran (decode (length lent.old) calls.now) (contents start) lent.old lent.new result }
{
    let mut ledger = start;
    let mut at = 0;
    // A `while`, since the place goes on by the words that each call takes.
    while at < calls.len() {
        let kind = word_at(calls, at);
        let room = at_most(word_at(calls, at + 1), lent.len());
        let count = word_at(calls, at + 2);
        let from = at_most(at as u64 + 3, calls.len());
        let end = from + at_most(count, calls.len() - from);
        let list = &mut lent[..room];
        // What it says is not handed back: the claim speaks of the ledger and of the list.
        let _said = apply(&mut ledger, kind, &calls[from..end], list, 1, 0);
        at = end;
    }
    ledger
}

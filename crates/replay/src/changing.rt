// Makings, and the changing calls of a script.
ghost use Rattle.std.specs.Prelude.{[]};
ghost use Rattle.ledger.specs.Contents.{Held};
ghost use Rattle.ledger.specs.Meets.{Meets};
ghost use Rattle.replay.specs.Lines.{making_in, Renewed, Changed};

use crate::replies::Reply;
use calls::making;
use dispatch::changing;
use ledger::{Done, Ledger};
use lists::slices::word_at;
use script::FILL;
use script::calls::{Code, RESTORE};
use snapshots::restore::restore;
use types::Shard;

// What a code makes: `restore` the ledger of a snapshot, `new` an empty one.
fn made(code: Code, words: &[u64]) -> Done
    ensures { Meets (making_in code.place words.now) [] [] result }
{
    let local = Shard(word_at(words, 0));
    match code.place {
        RESTORE => restore(words),
        _ => making::new(
            local,
            word_at(words, 1),
            word_at(words, 2),
            word_at(words, 3),
        ),
    }
}

// The ledger that a code makes, refused or not, in place of the one that stood; as often as is said, and once at least.
pub fn renew(ledger: &mut Ledger, code: Code, words: &[u64], times: u64) -> Reply
    ensures { Renewed code.place words.now result ledger.new }
{
    let mut done = made(code, words);
    for _turn in 1..times {
        done = made(code, words);
    }
    *ledger = done.ledger;
    done.said
}

// The call of a code as often as is said, and once at least: each time on the ledger that the last left and on the list filled anew. A
// kind says how far behind `restore` the call stands in the table.
#[tactic(auto, using(crate::proofs::Replied::changed))]
pub fn apply(ledger: &mut Ledger, code: Code, words: &[u64], list: &mut [u64], times: u64) -> Reply
    requires { Held ledger.old }
    ensures { Changed code.place words.now times ledger.old list.old list.new result ledger.new }
{
    let kind = code.place.saturating_sub(RESTORE) as u64;
    list.fill(FILL);
    changing::apply(ledger, kind, words, list, times.max(1), FILL)
}

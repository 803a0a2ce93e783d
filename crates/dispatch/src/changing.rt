// The changing calls by their kinds, an arm for each.
ghost use Rattle.std.specs.Prelude.{◌≡◌, cond, map, length};
ghost use Rattle.ledger.specs.Contents.{Held};
ghost use Rattle.ledger.specs.Meets.{saying};
ghost use Rattle.dispatch.specs.Changing.{call_of, Turned};

use batches::abandonment::record_abandonment;
use batches::finalization::release_resolved;
use bundles::bundle;
use calls::admission::register_committed;
use calls::certificate::{certify, record_absence};
use calls::release::{fated, forget};
use calls::settlement::{returned, settled};
use calls::terminal::{record_terminal, stamp_terminal};
use ledger::{Ledger, Said};
use lists::slices::word_at;
use sweeps::closes::closes;
use sweeps::prune::prune;
use types::{RecordKey, Shard, Time, Transaction};

// The word in every place before a further turn; the first has the list as it was lent.
fn refill(lent: &mut [u64], word: u64, is_further: bool)
    ensures { lent.new ≡ cond is_further (map (λ w. word) lent.old) lent.old }
{
    if is_further {
        lent.fill(word);
    }
}

// The call of a kind, so many times, each on the ledger that the last left and on the list filled anew. Words that are missing count
// as 0, and a call that takes no list leaves the lent one as it is. A kind is a number and no enum: it is a word of the claim's list of calls,
// any word is taken, and the order is that of script's table.
pub fn apply(
    ledger: &mut Ledger,
    kind: u64,
    words: &[u64],
    lent: &mut [u64],
    turns: u64,
    blank: u64,
) -> Said
    requires { Held ledger.old }
    ensures { Turned turns blank (call_of kind words.now (length lent.old)) ledger.old lent.old lent.new (saying result ledger.new) }
{
    let a = word_at(words, 0);
    let b = word_at(words, 1);
    let c = word_at(words, 2);
    let d = word_at(words, 3);
    // A transaction stands first, or second behind a record's key.
    let tx = Transaction::read(words, 0);
    let second = Transaction::read(words, 1);
    let mut said = Ok([0; 3]);
    for i in 0..turns {
        refill(lent, blank, 0 < i);
        said = match kind {
            1 => register_committed(ledger, words),
            2 => record_absence(ledger, tx, Shard(b), c),
            3 => certify(ledger, tx, b),
            4 => record_abandonment(ledger, words),
            5 => settled(ledger, RecordKey(a), second),
            6 => returned(ledger, RecordKey(a), second),
            7 => closes(ledger, lent),
            8 => fated(ledger, tx),
            9 => release_resolved(ledger, words),
            10 => forget(ledger, tx),
            11 => record_terminal(ledger, Shard(a), Time(b), c, Time(d)),
            12 => stamp_terminal(ledger, Shard(a), Time(b)),
            14 => bundle(ledger, words),
            _ => prune(ledger, Time(a), lent),
        };
    }
    said
}

// A ledger made from a snapshot's words: a making with its local and spans, then the counts, the departures, the entries.
ghost use Rattle.std.specs.Prelude.{◌≡◌, []};
ghost use Rattle.lists.specs.Lists.{cut};
ghost use Rattle.rules.specs.Words.{word};
ghost use Rattle.rules.specs.Calls.{making};
ghost use Rattle.rules.specs.Snapshot.{count_parts, departure_parts, restoring};
ghost use Rattle.ledger.specs.Contents.{contents};
ghost use Rattle.ledger.specs.Meets.{Meets};
ghost use Rattle.snapshots.specs.Restore.{Empty, Takes, TakesCounts, TakesDepartures, Ready, Made, Fills, Refused};

use crate::counts::count_all;
use crate::departures::file_all;
use crate::entries::read_entry;
use crate::form::{is_formed, sizes_at};
use calls::admission::take_in;
use calls::making::new;
use ledger::{Done, Ledger};
use lists::slices::{part, size_at, word_at};
use types::Shard;
use types::refusal::Refusal;

// The entries that lie joined taken in, as long as each is such as is written and comes behind those before it; whether all are.
fn take_entries(ledger: &mut Ledger, lengths: &[u64], joined: &[u64]) -> bool
    requires { Empty lengths.now joined.now ledger.old }
    ensures { Takes (cut lengths.now joined.now) ledger.old ledger.new result }
{
    let mut rest = joined;
    for n in lengths {
        let (words, behind) = rest.split_at(*n as usize);
        let Some(e) = read_entry(words, ledger.local) else {
            return false;
        };
        if !ledger.roster.is_last(e.tx) {
            return false;
        }
        take_in(ledger, &e);
        rest = behind;
    }
    true
}

// The words' counts put into a ledger that has none, as long as they are such as are written; whether all are.
fn take_counts(ledger: &mut Ledger, words: &[u64]) -> bool
    requires { Ready words.now ledger.old × ((contents ledger.old).counts ≡ []) }
    ensures { TakesCounts (count_parts words.now) ledger.old ledger.new result }
{
    let (_, counts) = words.split_at(5);
    count_all(&mut ledger.counts, counts, size_at(words, 4))
}

// Their departures likewise.
fn take_departures(ledger: &mut Ledger, words: &[u64]) -> bool
    requires { Ready words.now ledger.old × ((contents ledger.old).departures ≡ []) }
    ensures { TakesDepartures (departure_parts words.now) ledger.old ledger.new result }
{
    let m = size_at(words, sizes_at(words) + 1);
    let (_, departures) = words.split_at(words.len() - 4 * m);
    file_all(&mut ledger.departures, departures, m)
}

// What the words say put into a ledger that was made with their local and spans; whether all of it is such as is written.
fn fill(ledger: &mut Ledger, words: &[u64]) -> bool
    requires { Made words.now ledger.old }
    ensures { Fills words.now ledger.new result }
{
    if !take_counts(ledger, words) {
        return false;
    }
    if !take_departures(ledger, words) {
        return false;
    }
    let at = sizes_at(words);
    let n = size_at(words, at);
    let (_, entries) = words.split_at(at + 2 + n);
    take_entries(ledger, part(words, at + 2, n), entries)
}

// What is handed back where the words are refused: the ledger of a refused making.
fn refused(refusal: Refusal) -> Done
    ensures { Refused refusal result }
{
    let made = new(Shard(0), 0, 0, 0);
    Done {
        said: Err(refusal),
        ledger: made.ledger,
    }
}

// A making with the local and the spans that the words begin with.
fn framed(words: &[u64]) -> Done
    ensures { Meets (making (word 0 words.now) (word 1 words.now) (word 2 words.now) (word 3 words.now)) [] [] result }
{
    let local = Shard(word_at(words, 0));
    new(
        local,
        word_at(words, 1),
        word_at(words, 2),
        word_at(words, 3),
    )
}

// The ledger whose snapshot these words are.
pub fn restore(words: &[u64]) -> Done
    ensures { Meets (restoring words.now) [] [] result }
{
    if !is_formed(words) {
        return refused(Refusal::NoSnapshot);
    }
    let mut done = framed(words);
    if done.said.is_err() {
        return refused(Refusal::NeverWritten);
    }
    if !fill(&mut done.ledger, words) {
        return refused(Refusal::NeverWritten);
    }
    done
}

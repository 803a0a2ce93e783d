// The readings by their kinds, an arm for each.
ghost use Rattle.std.specs.Prelude.{◌≡◌, [], length};
ghost use Rattle.rules.specs.Readings.{read, take_snapshot};
ghost use Rattle.rules.specs.Words.{word};
ghost use Rattle.types.specs.Transactions.{number_of};
ghost use Rattle.ledger.specs.Contents.{Held, contents};
ghost use Rattle.readings.specs.Reads.{Reads};
ghost use Rattle.dispatch.specs.Reading.{reading_of, lookup_of, question_open, question_answered};

use entry_lists::{issuers_of, past_deadline, questions};
use ledger::Ledger;
use lists::slices::{word_at, words_behind};
use readings::lookups;
use readings::lookups::Question;
use shard_lists::{
    claimants, counterparts, counterparts_by_tree, leaves, reach, rebuilt_by_shard,
    unstamped_departures,
};
use snapshots::write::snapshot;
use types::refusal::Refusal;
use types::{RecordKey, Shard, Time, Transaction};

// The reading of a kind. Words that are missing count as 0, and a reading that takes no list leaves the lent one as it is. A kind is a number
// and no enum, as in `changing`: any word is taken, and the order is that of script's table.
#[tactic(auto, using(crate::proofs::Lent::beside_reading), unfolding(crate::specs::Reading::reading_of))]
pub fn ask(ledger: &Ledger, kind: u64, words: &[u64], lent: &mut [u64]) -> Result<u64, Refusal>
    requires { Held ledger.now }
    ensures { Reads (read (reading_of kind words.now (length lent.old)) (contents ledger.now)) lent.old lent.new result }
{
    match kind {
        1 => questions(ledger, lent),
        4 => past_deadline(ledger, Time(word_at(words, 0)), lent),
        5 => issuers_of(ledger, word_at(words, 0), lent),
        6 => claimants(
            ledger,
            Transaction::read(words, 0),
            RecordKey(word_at(words, 1)),
            lent,
        ),
        7 => counterparts(ledger, Transaction::read(words, 0), word_at(words, 1), lent),
        8 => unstamped_departures(ledger, lent),
        9 => reach(ledger, Transaction::read(words, 0), lent),
        18 => whole(ledger, lent),
        19 => rebuilt_by_shard(ledger, lent),
        21 => leaves(ledger, words, lent),
        22 => counterparts_by_tree(
            ledger,
            Transaction::read(words, 0),
            Transaction::behind(words),
            lent,
        ),
        _ => look_up(ledger, kind, words),
    }
}

// All words of the ledger, in a function of its own, so that the place of its answer is not cleared ahead of the other arms.
fn whole(ledger: &Ledger, lent: &mut [u64]) -> Result<u64, Refusal>
    requires { Held ledger.now }
    ensures { Reads (read (take_snapshot (length lent.old)) (contents ledger.now)) lent.old lent.new result }
{
    snapshot(ledger, lent)
}

// A lookup: a reading that is lent no list.
#[tactic(auto, unfolding(crate::specs::Reading::lookup_of))]
fn look_up(ledger: &Ledger, kind: u64, words: &[u64]) -> Result<u64, Refusal>
    requires { Held ledger.now }
    ensures { Reads (read (lookup_of kind words.now) (contents ledger.now)) [] [] result }
{
    // A transaction stands first, or second behind a record's key.
    match kind {
        2 => open_at(ledger, words),
        3 => answers(ledger, words),
        10 => lookups::abandonment_answers(ledger, Transaction::read(words, 0)),
        11 => lookups::is_covered(ledger, Transaction::read(words, 0)),
        12 => lookups::departed(ledger, Transaction::read(words, 0)),
        13 => lookups::executed(ledger, Transaction::read(words, 0)),
        14 => lookups::reaches_beyond(ledger, Transaction::read(words, 0)),
        15 => lookups::issued_by(
            ledger,
            RecordKey(word_at(words, 0)),
            Transaction::read(words, 1),
        ),
        16 => lookups::local(ledger),
        20 => lookups::leaf_for_route(ledger, word_at(words, 0), words_behind(words, 1)),
        _ => lookups::rebuilt(ledger),
    }
}

// A question as it is handed in: transaction, shard, key, at and end.
fn question(words: &[u64]) -> Question
    ensures transaction { number_of result.tx ≡ word 0 words.now }
    ensures shard { result.shard.0 ≡ word 1 words.now }
    ensures key { result.key ≡ word 2 words.now }
    ensures at { result.at.0 ≡ word 3 words.now }
    ensures end { result.end.0 ≡ word 4 words.now }
{
    Question {
        tx: Transaction::read(words, 0),
        shard: Shard(word_at(words, 1)),
        key: word_at(words, 2),
        at: Time(word_at(words, 3)),
        end: Time(word_at(words, 4)),
    }
}

// Behind a question the clock.
fn open_at(ledger: &Ledger, words: &[u64]) -> Result<u64, Refusal>
    requires { Held ledger.now }
    ensures { Reads (read (question_open words.now) (contents ledger.now)) [] [] result }
{
    lookups::open_at(ledger, question(words), Time(word_at(words, 5)))
}

// Behind a question when the cell was read and what was found.
fn answers(ledger: &Ledger, words: &[u64]) -> Result<u64, Refusal>
    requires { Held ledger.now }
    ensures { Reads (read (question_answered words.now) (contents ledger.now)) [] [] result }
{
    let read_at = Time(word_at(words, 5));
    lookups::answers(ledger, question(words), read_at, word_at(words, 6))
}

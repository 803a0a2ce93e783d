// Lists by transaction: questions, entries past their deadline, issuers of an id. The words of each are gathered in one pass over the
// ledger, in an array that has room for all there can be, and then written out, or refused where the lent list is too short. Questions may
// be so many that an array for them would cost more than a pass that counts them: they are counted, and then written at once. The helpers
// are lent the ledger, so that none copies it.
#![tactic(auto)]

ghost use Rattle.std.specs.Prelude.{◌≡◌, ◌+◌, ◌*◌, ◌≤◌, length, Some};
ghost use Rattle.rules.specs.Readings.{read, ask_questions, list_past_deadline, list_issuers, questions, questions_of, question_words};
ghost use Rattle.rules.specs.Good.{GoodEntry};
ghost use Rattle.rules.specs.Numbers.{max_entries};
ghost use Rattle.rules.specs.Widths.{question_size};
ghost use Rattle.entry.specs.Entry.{plain_entry};
ghost use Rattle.ledger.specs.Contents.{contents, Held};
ghost use Rattle.readings.specs.Reads.{Reads};
ghost use Rattle.entry_lists.specs.Tests.{is_asking, asks_of, is_past, holds_id};
ghost use Rattle.entry_lists.specs.Runs.{Ran, Gathers};
ghost use Rattle.std.specs.Fn.{FnReturnsAt};

use entry::{Certificate, Entry};
use ledger::Ledger;
use readings::reply::list;
use std::convert::AsSlice;
use types::refusal::Refusal;
use types::widths::{ISSUER_WORDS, ISSUERS_ROOM, QUESTION_WORDS, TERM_WORDS, TERMS_ROOM};
use types::{Shard, Time};

// Whether the entry asks: an uncovered core.
#[tactic(auto, unfolding(entry::specs::Entry::plain_entry))]
fn is_asking(e: &Entry) -> bool
    ensures { result ≡ is_asking (plain_entry e.now) }
{
    e.part.is_core() && !e.covered()
}

// The entry's questions, five words each, put behind those that are there; how many there are then.
fn put_questions(e: &Entry, local: Shard, from: usize, words: &mut [u64]) -> usize
    requires { question_size * (from + length (asks_of local.0 (plain_entry e.now))) ≤ length words.old }
    ensures { Ran question_words question_size (asks_of local.0 (plain_entry e.now)) words.old from words.new result }
{
    let mut count = from;
    let n = e.core_len as usize;
    for shard in &e.core[..n] {
        if *shard != local.0 {
            let key = types::cell_key(e.tx, e.end, Shard(*shard));
            let row = [*shard, key, e.at.0, e.end.0];
            e.tx.put_item(&row, words, QUESTION_WORDS * count);
            count += 1;
        }
    }
    count
}

// How many questions the entry asks. A core has local in it, of which nothing is asked: what makes an entry good
// depends on the ledger's local, and is no fact of the entry alone.
#[tactic(auto, using(crate::proofs::ByEntry::asks_some, crate::proofs::ByEntry::asks_all, crate::proofs::ByEntry::asks_none))]
fn asks(e: &Entry, local: Shard) -> usize
    requires { GoodEntry local.0 (plain_entry e.now) }
    ensures { (result ≡ length (questions_of local.0 (plain_entry e.now))) × (result ≤ 8) }
{
    if is_asking(e) {
        e.core_len as usize - 1
    } else {
        0
    }
}

// How many questions there are. An iterator's sum is no plainer: its bound would be proved beside it.
fn count_questions(ledger: &Ledger) -> usize
    requires { Held ledger.now }
    ensures { (result ≡ length (questions (contents ledger.now))) × (result ≤ 8 * max_entries) }
{
    let mut count = 0;
    for slot in &ledger.roster.slots[..ledger.roster.len] {
        count += asks(&ledger.entries[*slot], ledger.local);
    }
    count
}

// The questions, written from the front on; how many there are.
fn write_questions(ledger: &Ledger, lent: &mut [u64]) -> usize
    requires { Held ledger.now × (question_size * length (questions (contents ledger.now)) ≤ length lent.old) }
    ensures { Ran question_words question_size (questions (contents ledger.now)) lent.old 0 lent.new result }
{
    let mut count = 0;
    for slot in &ledger.roster.slots[..ledger.roster.len] {
        let e = &ledger.entries[*slot];
        if is_asking(e) {
            count = put_questions(e, ledger.local, count, lent);
        }
    }
    count
}

// Each core shard but local of each uncovered core entry, with its cell key.
pub fn questions(ledger: &Ledger, lent: &mut [u64]) -> Result<u64, Refusal>
    requires { Held ledger.now }
    ensures { Reads (read (ask_questions (length lent.old)) (contents ledger.now)) lent.old lent.new result }
{
    if lent.len() < QUESTION_WORDS * count_questions(ledger) {
        return Err(Refusal::ListShort);
    }
    Ok(write_questions(ledger, lent) as u64)
}

// Whether the entry is past its deadline and no settlement ends it.
#[tactic(auto, unfolding(entry::specs::Entry::plain_entry))]
fn is_past(e: &Entry, validity: u64, time: Time) -> bool
    ensures { result ≡ is_past validity time.0 (plain_entry e.now) }
{
    let is_unexecuted = e.certified < Certificate::ByExecution;
    let is_held = e.covered() || is_unexecuted || time.is_before(e.at, validity);
    !e.part.is_settling() && e.at <= time && is_held
}

// The items of the entries that `row_of` gives a row of, the words behind an item's transaction, put one behind the other from the front
// on, so many words each; how many they are.
fn gather<R: AsSlice<u64> + Copy, F: Fn(&Entry) -> Option<R>>(
    ledger: &Ledger,
    row_of: F,
    size: usize,
    words: &mut [u64],
) -> usize
    requires held { Held ledger.now }
    requires callable { (e : _) → F.pre row_of e }
    requires sizes { (e : _) (r : R) → F.post row_of e (Some r) → length (R.items r) + 1 ≡ size }
    requires room { max_entries * size ≤ length words.old }
    ensures few { result ≤ max_entries }
    ensures items { Gathers R.items (FnReturnsAt F.Fn row_of) ledger.now size words.old words.new result }
{
    let mut count = 0;
    for slot in &ledger.roster.slots[..ledger.roster.len] {
        let e = &ledger.entries[*slot];
        if let Some(row) = row_of(e) {
            e.tx.put_item(row.as_slice(), words, size * count);
            count += 1;
        }
    }
    count
}

// The entries past their deadline that no settlement ends.
pub fn past_deadline(ledger: &Ledger, time: Time, lent: &mut [u64]) -> Result<u64, Refusal>
    requires { Held ledger.now }
    ensures { Reads (read (list_past_deadline time.0 (length lent.old)) (contents ledger.now)) lent.old lent.new result }
{
    if !types::is_time(time.0) {
        return Err(Refusal::NoTime);
    }
    let row_of = |e: &Entry| {
        is_past(e, ledger.validity, time).then_some([e.at.0, e.end.0, e.anchor.0, e.charge])
    };
    let mut words = [0; TERMS_ROOM]; // with a count beside: there is no heap
    let n = gather(ledger, row_of, TERM_WORDS, &mut words);
    list(&words[..TERM_WORDS * n], n, lent)
}

// Whether an edge from local has this very id.
fn issues_id(e: &Entry, local: Shard, id: u64) -> bool
    ensures { result ≡ holds_id local.0 id (plain_entry e.now) }
{
    e.has_edge(|from, held, _| from == local && held == id)
}

// Those that issued this very id. An edge from local that has the id is in the index under the id's key, which is thus not asked.
pub fn issuers_of(ledger: &Ledger, id: u64, lent: &mut [u64]) -> Result<u64, Refusal>
    requires { Held ledger.now }
    ensures { Reads (read (list_issuers id (length lent.old)) (contents ledger.now)) lent.old lent.new result }
{
    let row_of = |e: &Entry| issues_id(e, ledger.local, id).then_some([e.end.0]);
    let mut words = [0; ISSUERS_ROOM]; // with a count beside: there is no heap
    let n = gather(ledger, row_of, ISSUER_WORDS, &mut words);
    list(&words[..ISSUER_WORDS * n], n, lent)
}

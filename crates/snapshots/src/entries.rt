// An entry read from a snapshot's words: its admission's, as an admission would be taken in, and its history put on it.
ghost use Rattle.std.specs.Prelude.{◌≡◌, ◌&&◌, true, false, eqb, take, MatchOption};
ghost use Rattle.lists.specs.Lists.{all};
ghost use Rattle.rules.specs.Plain.{is_core, issues, owes};
ghost use Rattle.rules.specs.Words.{core_count, edge_count, decomposed, admission_terms, admission_formed};
ghost use Rattle.rules.specs.Entries.{admitted};
ghost use Rattle.rules.specs.Snapshot.{part_fits, are_issued, marks_fit, entry_in, entry_formed, entry_sound};
ghost use Rattle.entry.specs.Entry.{plain_part, plain_entry, Means};

use crate::form::admission_length;
use crate::history::History;
use calls::admission::check;
use entry::{Entry, Part};
use lists::slices::{rises, word_at};
use types::{RecordKey, Shard};

// An admission that is not decomposed and has neither core nor edges.
fn is_bare(words: &[u64]) -> bool
    ensures { result ≡ eqb (decomposed words.now) 0 && (eqb (core_count words.now) 0 && eqb (edge_count words.now) 0) }
{
    word_at(words, 8) == 0 && word_at(words, 1) == 0 && word_at(words, 2) == 0
}

#[tactic(auto, unfolding(entry::specs::Entry::plain_entry))]
fn is_owing_core(e: &Entry, local: Shard) -> bool
    ensures { result ≡ is_core (plain_entry e.now).part && owes local.0 (plain_entry e.now).terms }
{
    e.part.is_core() && e.owes(local)
}

// Whether the part goes with what the admission's words say: e is the entry that the admission takes in.
fn part_fits(part: Part, words: &[u64], e: &Entry, local: Shard) -> bool
    requires { (admission_formed words.now ≡ true) × Means (admitted local.0 words.now) e.now }
    ensures { result ≡ part_fits (plain_part part) local.0 (decomposed words.now) (admission_terms words.now) }
{
    match part {
        Part::Whole => is_bare(words),
        Part::Leg => e.part.is_leg(),
        Part::Core => e.part.is_core(),
        Part::Remainder => is_owing_core(e, local),
    }
}

fn all_issued(e: &Entry, local: Shard) -> bool
    ensures { result ≡ all (λ r. issues local.0 r (plain_entry e.now).terms) (take e.now.marks_len e.now.marks) }
{
    let marks = &e.marks[..e.marks_len as usize];
    marks.iter().all(|r| e.issues(local, RecordKey(*r)))
}

// Whether the marks rise and are of records that the entry issued; a return is a mark.
#[tactic(auto, using(crate::proofs::Fitting::issued), unfolding(entry::specs::Entry::plain_entry))]
fn are_issued(e: &Entry, local: Shard) -> bool
    ensures { result ≡ are_issued local.0 (plain_entry e.now).terms (plain_entry e.now).marks (plain_entry e.now).returned }
{
    rises(&e.marks[..e.marks_len as usize])
        && all_issued(e, local)
        && (!e.returned || e.marks_len > 0)
}

#[tactic(auto, unfolding(entry::specs::Entry::plain_entry))]
fn marks_fit(e: &Entry, local: Shard) -> bool
    ensures { result ≡ marks_fit (plain_entry e.now).part local.0 (plain_entry e.now).terms (plain_entry e.now).marks (plain_entry e.now).returned }
{
    if e.part.is_settling() {
        are_issued(e, local)
    } else {
        e.marks_len == 0 && !e.returned
    }
}

// None where the words are such as are written of no entry. Their form stands, so that the admission's length is told.
pub fn read_entry(words: &[u64], local: Shard) -> Option<Entry>
    requires { entry_formed words.now ≡ true }
    ensures { MatchOption result (entry_sound local.0 words.now ≡ false) (λ e. (entry_sound local.0 words.now ≡ true) × Means (entry_in words.now) e) }
{
    let (admitted, rest) = words.split_at(admission_length(words)?);
    let admission = check(admitted).ok()?;
    let history = History::read(rest)?;
    let mut e = admission.entry(local);
    if !part_fits(history.part, admitted, &e, local) {
        return None;
    }
    history.put(&mut e);
    marks_fit(&e, local).then_some(e)
}

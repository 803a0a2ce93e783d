// What became of an entry after its admission, as a snapshot's words have it: part, certificate, naming shard or 0, returned; the number of
// absences and these, the number of marks and these.
ghost use Rattle.std.specs.Prelude.{◌≡◌, ◌≤◌, ◌&&◌, true, false, map, MatchOption};
ghost use Rattle.lists.specs.Lists.{all, ascending};
ghost use Rattle.lists.specs.Front.{held};
ghost use Rattle.rules.specs.Numbers.{is_shard};
ghost use Rattle.rules.specs.Plain as plain;
ghost use Rattle.rules.specs.Plain.{absence_key};
ghost use Rattle.rules.specs.Good.{is_departed_by};
ghost use Rattle.rules.specs.Snapshot.{absence_count, absence_parts, absence_in, marks_in as marks_at_end};
ghost use Rattle.entry.specs.Entry.{plain_absence, plain_entry, Means};
ghost use Rattle.snapshots.specs.Form.{history_formed};
ghost use Rattle.snapshots.specs.History.{history_sound, Tells, with_history};

use entry::{Absence, Certificate, Entry, Part};
use lists::front::Front;
use lists::slices::{front, part, size_at, word_at};
use types::{Shard, is_shard};

#[derive(Clone, Copy)]
pub struct History {
    pub part: Part,
    pub certified: Certificate,
    pub departed_by: Shard,
    pub returned: bool,
    pub absences: Front<Absence, 8>,
    pub marks: Front<u64, 8>,
}

// No record names the entry, or a shard's does.
fn is_naming(shard: u64) -> bool
    ensures { result ≡ is_departed_by shard }
{
    shard == 0 || is_shard(shard)
}

fn absences_in(words: &[u64]) -> Front<Absence, 8>
    requires { absence_count words.now ≤ 8 }
    ensures { map plain_absence (held result) ≡ map absence_in (absence_parts words.now) }
{
    let mut absences = Front::new(Absence {
        shard: Shard(0),
        key: 0,
    });
    // By place: two words make an absence.
    for i in 0..size_at(words, 4) {
        absences.push(Absence {
            shard: Shard(word_at(words, 5 + 2 * i)),
            key: word_at(words, 6 + 2 * i),
        });
    }
    absences
}

fn are_placed(s: &[Absence]) -> bool
    ensures { result ≡ all (λ a. is_shard a.shard.0) s.now }
{
    s.iter().all(|a| is_shard(a.shard.0))
}

fn rise(s: &[Absence]) -> bool
    ensures { result ≡ ascending (λ a. absence_key (plain_absence a)) s.now }
{
    s.is_sorted_by(|a, b| a.is_below(*b))
}

// Whether each is of a shard, and one is above the one before it.
fn are_absences(s: &[Absence]) -> bool
    ensures { result ≡ all (λ (a : plain.Absence). is_shard a.shard) (map plain_absence s.now) && ascending absence_key (map plain_absence s.now) }
{
    are_placed(s) && rise(s)
}

fn marks_in(words: &[u64]) -> Front<u64, 8>
    requires { history_formed words.now ≡ true }
    ensures { held result ≡ marks_at_end words.now }
{
    let at = 5 + 2 * size_at(words, 4);
    let marks = part(words, at + 1, size_at(words, at));
    Front {
        items: front(marks),
        len: marks.len(),
    }
}

impl History {
    // None where the words are such as are written of no entry.
    #[tactic(auto, unfolding(crate::specs::History::history_sound))]
    pub fn read(words: &[u64]) -> Option<History>
        requires { history_formed words.now ≡ true }
        ensures { MatchOption result (history_sound words.now ≡ false) (λ h. (history_sound words.now ≡ true) × Tells words.now h) }
    {
        let part = Part::try_from(word_at(words, 0)).ok()?;
        let certified = Certificate::try_from(word_at(words, 1)).ok()?;
        let departed_by = word_at(words, 2);
        let returned = word_at(words, 3);
        if !is_naming(departed_by) || 1 < returned {
            return None;
        }
        let absences = absences_in(words);
        if !are_absences(absences.as_slice()) {
            return None;
        }
        Some(History {
            part,
            certified,
            departed_by: Shard(departed_by),
            returned: returned == 1,
            absences,
            marks: marks_in(words),
        })
    }

    // The entry with this history.
    #[tactic(auto, unfolding(entry::specs::Entry::plain_entry))]
    pub fn put(&self, e: &mut Entry)
        ensures { Means (with_history self.now (plain_entry e.old)) e.new }
    {
        e.part = self.part;
        e.certified = self.certified;
        e.departed_by = self.departed_by;
        e.returned = self.returned;
        e.absences = self.absences.items;
        e.absences_len = self.absences.len as u8;
        e.marks = self.marks.items;
        e.marks_len = self.marks.len as u8;
    }
}

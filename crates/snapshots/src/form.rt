// The form of a snapshot's words: as many as their sizes require, each size within its limit.
ghost use Rattle.std.specs.Prelude.{◌≡◌, ◌≤◌, length, MatchOption};
ghost use Rattle.lists.specs.Lists.{all, total, self as itself, cut};
ghost use Rattle.rules.specs.Snapshot.{admission_length, entry_formed, shard_count, sizes_at, snapshot_formed};
ghost use Rattle.snapshots.specs.Form.{Measured, history_formed, counted};

use lists::slices::{adds_up, all_within, part, size_at, total};
use words::layout::Parts;

// How many of an entry's words are its admission's, as the sizes among them say. None where a size is over its limit or the words do not
// reach so far.
pub fn admission_length(words: &[u64]) -> Option<usize>
    ensures { MatchOption result (Measured words.now → ⊥) (λ n. Measured words.now × (n ≡ admission_length words.now)) }
{
    let parts = Parts::of(words)?;
    if !all_within(parts.sizes, 4) {
        return None;
    }
    let n = total(parts.sizes) as usize;
    if parts.destinations.len() < n {
        return None;
    }
    Some(words.len() - parts.destinations.len() + n)
}

// Whether a history is as long as the numbers of its absences and its marks require.
fn is_history(words: &[u64]) -> bool
    ensures { result ≡ history_formed words.now }
{
    let absences = size_at(words, 4);
    if 8 < absences {
        return false;
    }
    let marks_at = 5 + 2 * absences;
    let marks = size_at(words, marks_at);
    marks <= 8 && words.len() == marks_at + 1 + marks
}

fn is_entry(words: &[u64]) -> bool
    ensures { result ≡ entry_formed words.now }
{
    match admission_length(words) {
        Some(n) => is_history(&words[n..]),
        None => false,
    }
}

// Whether each of the entries that lie joined has its form.
fn are_entries(lengths: &[u64], joined: &[u64]) -> bool
    requires { total itself lengths.now ≤ length joined.now }
    ensures { result ≡ all entry_formed (cut lengths.now joined.now) }
{
    let mut rest = joined;
    for n in lengths {
        let (words, behind) = rest.split_at(*n as usize);
        if !is_entry(words) {
            return false;
        }
        rest = behind;
    }
    true
}

// Where the numbers of entries and of departures stand: behind the counts.
pub fn sizes_at(words: &[u64]) -> usize
    requires { shard_count words.now ≤ 32 }
    ensures { result ≡ sizes_at words.now }
{
    5 + 2 * size_at(words, 4)
}

// Whether there are not too many counts, entries and departures, and room for the counts, the lengths and the departures. The numbers may be
// any words: none is added to another before it is within its limit.
fn is_counted(words: &[u64]) -> bool
    ensures { result ≡ counted words.now }
{
    if 32 < size_at(words, 4) {
        return false;
    }
    let at = sizes_at(words);
    let n = size_at(words, at);
    let m = size_at(words, at + 1);
    n <= 48 && m <= 32 && at + 2 + n + 4 * m <= words.len()
}

pub fn is_formed(words: &[u64]) -> bool
    ensures { result ≡ snapshot_formed words.now }
{
    if !is_counted(words) {
        return false;
    }
    let at = sizes_at(words);
    let n = size_at(words, at);
    let rest = words.len() - (at + 2 + n + 4 * size_at(words, at + 1));
    let lengths = part(words, at + 2, n);
    let (_, entries) = words.split_at(at + 2 + n);
    adds_up(lengths, rest) && are_entries(lengths, entries)
}

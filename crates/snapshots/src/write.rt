// The ledger written as a snapshot's words: local, the spans, how many counts there are and these; how many entries and departures there are, each
// entry's length, the entries, the departures. How many words there are is told first, so that a list that is too short stays as it is.
ghost use Rattle.std.specs.Prelude.{◌≡◌, ◌≤◌, ◌+◌, ◌*◌, map, length};
ghost use Rattle.lists.specs.Lists.{concat_map};
ghost use Rattle.rules.specs.Readings.{read, take_snapshot};
ghost use Rattle.rules.specs.Snapshot.{entry_words, departure_words, count_words, snapshot_words};
ghost use Rattle.rules.specs.Widths.{entry_room, snapshot_room};
ghost use Rattle.store.specs.Counts.{counts_in};
ghost use Rattle.store.specs.Departures.{on_file};
ghost use Rattle.store.specs.Stored.{plain_departure};
ghost use Rattle.ledger.specs.Contents.{Held, contents};
ghost use Rattle.readings.specs.Reads.{Reads};
ghost use Rattle.snapshots.specs.Put.{Put, entry_lengths, frame_words, size_words};
ghost use Rattle.snapshots.specs.Whole.{Whole};

use crate::put::{entry_length, put, put_entry};
use ledger::Ledger;
use store::counts::Counts;
use store::departures::{Departure, Departures};
use types::refusal::Refusal;

// The longest snapshot has so many words: 7, 2 for each of 32 counts, the lengths of 48 entries, 119 words for each of these, 4 for each of
// 32 departures.
pub const SNAPSHOT_ROOM: usize = 5959;

// How many words the entries have.
fn entries_length(ledger: &Ledger) -> usize
    requires { Held ledger.now }
    ensures { (result ≡ length (concat_map entry_words (contents ledger.now).entries)) × (result ≤ 48 * entry_room) }
{
    let mut n = 0;
    for slot in &ledger.roster.slots[..ledger.roster.len] {
        n += entry_length(&ledger.entries[*slot]);
    }
    n
}

// How many words the snapshot has.
pub fn snapshot_length(ledger: &Ledger) -> usize
    requires { Held ledger.now }
    ensures { (result ≡ length (snapshot_words (contents ledger.now))) × (result ≤ snapshot_room) }
{
    let frame = 7 + 2 * ledger.counts.front.len;
    frame + ledger.roster.len + entries_length(ledger) + 4 * ledger.departures.front.len
}

fn put_lengths(ledger: &Ledger, words: &mut [u64], at: usize) -> usize
    requires { Held ledger.now × (at + ledger.now.roster.len ≤ length words.old) }
    ensures { Put (entry_lengths (contents ledger.now).entries) words.old at words.new result }
{
    let mut end = at;
    for slot in &ledger.roster.slots[..ledger.roster.len] {
        let n = entry_length(&ledger.entries[*slot]);
        end = put(&[n as u64], words, end);
    }
    end
}

fn put_entries(ledger: &Ledger, words: &mut [u64], at: usize) -> usize
    requires { Held ledger.now × (at + length (concat_map entry_words (contents ledger.now).entries) ≤ length words.old) }
    ensures { Put (concat_map entry_words (contents ledger.now).entries) words.old at words.new result }
{
    let mut end = at;
    for slot in &ledger.roster.slots[..ledger.roster.len] {
        end = put_entry(&ledger.entries[*slot], words, end);
    }
    end
}

// Stamped and until, which is 0 without a stamp.
fn put_departure(d: &Departure, words: &mut [u64], at: usize) -> usize
    requires { at + 4 ≤ length words.old }
    ensures { Put (departure_words (plain_departure d.now)) words.old at words.new result }
{
    let until = d.until.map_or(0, |time| time.0);
    let stamped = u64::from(d.until.is_some());
    put(&[d.shard.0, d.cut.0, stamped, until], words, at)
}

fn put_departures(departures: &Departures, words: &mut [u64], at: usize) -> usize
    requires { at + 4 * departures.now.front.len ≤ length words.old }
    ensures { Put (concat_map departure_words (on_file departures.now)) words.old at words.new result }
{
    let mut end = at;
    for d in departures.front.as_slice() {
        end = put_departure(d, words, end);
    }
    end
}

fn put_counts(counts: &Counts, words: &mut [u64], at: usize) -> usize
    requires { at + 2 * counts.now.front.len ≤ length words.old }
    ensures { Put (concat_map count_words (counts_in counts.now)) words.old at words.new result }
{
    let pairs = counts.pairs();
    put(pairs.as_slice(), words, at)
}

// The frame: what comes ahead of the counts.
fn put_frame(ledger: &Ledger, words: &mut [u64]) -> usize
    requires { Held ledger.now × (5 ≤ length words.old) }
    ensures { Put (frame_words (contents ledger.now)) words.old 0 words.new result }
{
    let frame = [
        ledger.local.0,
        ledger.validity,
        ledger.core_span,
        ledger.leg_span,
        ledger.counts.front.len as u64,
    ];
    put(&frame, words, 0)
}

// How many entries and departures there are.
fn put_sizes(ledger: &Ledger, words: &mut [u64], at: usize) -> usize
    requires { Held ledger.now × (at + 2 ≤ length words.old) }
    ensures { Put (size_words (contents ledger.now)) words.old at words.new result }
{
    let sizes = [ledger.roster.len as u64, ledger.departures.front.len as u64];
    put(&sizes, words, at)
}

// The ledger's words written to the front of lent; how many they are.
pub fn snapshot(ledger: &Ledger, lent: &mut [u64]) -> Result<u64, Refusal>
    requires { Held ledger.now }
    ensures { Reads (read (take_snapshot (length lent.old)) (contents ledger.now)) lent.old lent.new result }
{
    let n = snapshot_length(ledger);
    if lent.len() < n {
        return Err(Refusal::ListShort);
    }
    let at = put_frame(ledger, lent);
    let at = put_counts(&ledger.counts, lent, at);
    let at = put_sizes(ledger, lent, at);
    let at = put_lengths(ledger, lent, at);
    let at = put_entries(ledger, lent, at);
    put_departures(&ledger.departures, lent, at);
    Ok(n as u64)
}

// The same where there is room for every snapshot, so that none is refused; how many words it has.
pub fn whole_snapshot(ledger: &Ledger, words: &mut [u64; SNAPSHOT_ROOM]) -> usize
    requires { Held ledger.now }
    ensures { Whole ledger.now words.new result }
{
    snapshot(ledger, words).unwrap_or(0) as usize
}

// The departures read from a snapshot's words, four words each.
ghost use Rattle.std.specs.Prelude.{◌≡◌, ◌≤◌, ◌*◌, ◌&&◌, [], leb, length};
ghost use Rattle.lists.specs.Lists.{rows};
ghost use Rattle.rules.specs.Snapshot.{departure_in, departure_sound, until_fits};
ghost use Rattle.store.specs.Stored.{plain_departure};
ghost use Rattle.store.specs.Departures.{on_file};
ghost use Rattle.snapshots.specs.Restore.{Files};

use calls::terminal::stamp_in;
use lists::slices::{part, word_at};
use store::departures::{Departure, Departures};
use types::{Shard, Time, is_shard, is_time};

// Stamped and until, which is 0 without a stamp.
fn is_stamp(stamped: u64, until: u64) -> bool
    ensures { result ≡ leb stamped 1 && until_fits stamped until }
{
    match stamped {
        0 => until == 0,
        1 => is_time(until),
        _ => false,
    }
}

fn is_departure(words: &[u64]) -> bool
    ensures { result ≡ departure_sound words.now }
{
    is_shard(word_at(words, 0))
        && is_time(word_at(words, 1))
        && is_stamp(word_at(words, 2), word_at(words, 3))
}

fn read_departure(words: &[u64]) -> Departure
    ensures { plain_departure result ≡ departure_in words.now }
{
    Departure {
        shard: Shard(word_at(words, 0)),
        cut: Time(word_at(words, 1)),
        until: stamp_in(word_at(words, 2), Time(word_at(words, 3))),
    }
}

// So many departures put on file, as long as each is such as is written and comes behind those before it; whether all are.
pub fn file_all(departures: &mut Departures, words: &[u64], count: usize) -> bool
    requires { (on_file departures.old ≡ []) × (count ≤ 32) × (4 * count ≤ length words.now) }
    ensures { Files (rows 4 count words.now) departures.new result }
{
    for i in 0..count {
        let row = part(words, 4 * i, 4);
        let d = read_departure(row);
        if !is_departure(row) {
            return false;
        }
        if !departures.is_last(d.shard) {
            return false;
        }
        departures.push(d);
    }
    true
}

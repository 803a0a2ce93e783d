// The entries that words give.
ghost use Rattle.std.specs.Prelude.{◌≤◌, length};
ghost use Rattle.entry.specs.Entry.{plain_part, certificate_number, Means};
ghost use Rattle.words.specs.Taken.{bare_entry};

use entry::{Certificate, Entry, Part};
use lists::slices::{front, word_at};
use types::{Shard, Time, Transaction};

// An entry with the figures that stand from a place on and these routes, no core and no edges.
pub fn bare(
    words: &[u64],
    at: usize,
    routes: &[u64],
    part: Part,
    certified: Certificate,
    departed_by: Shard,
) -> Entry
    requires { (at ≤ length words.now) × (length routes.now ≤ 8) }
    ensures { Means (bare_entry (plain_part part) at words.now routes.now (certificate_number certified) departed_by.0) result }
{
    let held = front(routes);
    let mut e = Entry::blank();
    e.tx = Transaction::read(words, at);
    e.at = Time(word_at(words, at + 1));
    e.end = Time(word_at(words, at + 2));
    e.anchor = Time(word_at(words, at + 3));
    e.charge = word_at(words, at + 4);
    e.departed_by = departed_by;
    e.part = part;
    e.certified = certified;
    e.routes = held;
    e.routes_len = routes.len() as u8;
    e
}

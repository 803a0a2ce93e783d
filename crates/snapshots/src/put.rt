// Words put down one row behind the other: rows of words, of bytes, and an entry's.
ghost use Rattle.std.specs.Prelude.{◌≡◌, ◌≤◌, ◌+◌, ◌*◌, true, leb, length, take};
ghost use Rattle.lists.specs.Lists.{all, total, self as itself, concat_map};
ghost use Rattle.rules.specs.Words.{edge_words};
ghost use Rattle.rules.specs.Widths.{entry_room};
ghost use Rattle.rules.specs.Snapshot.{absence_words, history_words, entry_words};
ghost use Rattle.entry.specs.Entry.{plain_entry, absences_of, edges_of};
ghost use Rattle.snapshots.specs.Put.{Put, head_words, edges_size, history_size, entry_size};

use entry::Entry;

// A row put down at a place; where it ends.
pub fn put(row: &[u64], words: &mut [u64], at: usize) -> usize
    requires { at + length row.now ≤ length words.old }
    ensures { Put row.now words.old at words.new result }
{
    let end = at + row.len();
    words[at..end].copy_from_slice(row);
    end
}

fn put_bytes(row: &[u8], words: &mut [u64], at: usize) -> usize
    requires { at + length row.now ≤ length words.old }
    ensures { Put row.now words.old at words.new result }
{
    let mut end = at;
    for byte in row {
        end = put(&[u64::from(*byte)], words, end);
    }
    end
}

// How many destinations edges have in all.
fn total(sizes: &[u8]) -> usize
    requires { (length sizes.now ≤ 8) × (all (λ n. leb n 4) sizes.now ≡ true) }
    ensures { (result ≡ total itself sizes.now) × (result ≤ 32) }
{
    let mut n = 0;
    for size in sizes {
        n += usize::from(*size);
    }
    n
}

// How many words the entry has.
pub fn entry_length(e: &Entry) -> usize
    ensures { (result ≡ entry_size e.now) × (result ≤ entry_room) }
{
    let n = e.edges_len as usize;
    let edges = 4 * n + total(&e.sizes[..n]);
    let history = 6 + 2 * e.absences_len as usize + e.marks_len as usize;
    9 + e.routes_len as usize + e.core_len as usize + edges + history
}

// What comes ahead of an entry's lists.
#[tactic(auto, unfolding(entry::specs::Entry::plain_entry))]
fn put_head(e: &Entry, words: &mut [u64], at: usize) -> usize
    requires { at + 9 ≤ length words.old }
    ensures { Put (head_words (plain_entry e.now)) words.old at words.new result }
{
    let counts = [e.routes_len as u64, e.core_len as u64, e.edges_len as u64];
    let from = put(&counts, words, at);
    let decomposed = e.part.number().min(1);
    let figures = [e.at.0, e.end.0, e.anchor.0, e.charge, decomposed];
    e.tx.put_item(&figures, words, from);
    from + 6
}

fn put_edges(e: &Entry, words: &mut [u64], at: usize) -> usize
    requires { at + edges_size e.now ≤ length words.old }
    ensures { Put (edge_words (edges_of e.now)) words.old at words.new result }
{
    let n = e.edges_len as usize;
    let sizes = &e.sizes[..n];
    let at = put(&e.ids[..n], words, at);
    let at = put(&e.froms[..n], words, at);
    let at = put_bytes(&e.kinds[..n], words, at);
    let at = put_bytes(sizes, words, at);
    put(&e.to[..total(sizes)], words, at)
}

fn put_absences(e: &Entry, words: &mut [u64], at: usize) -> usize
    requires { at + 2 * e.now.absences_len ≤ length words.old }
    ensures { Put (concat_map absence_words (absences_of e.now)) words.old at words.new result }
{
    let mut end = at;
    for a in &e.absences[..e.absences_len as usize] {
        end = put(&[a.shard.0, a.key], words, end);
    }
    end
}

#[tactic(auto, unfolding(entry::specs::Entry::plain_entry))]
fn put_history(e: &Entry, words: &mut [u64], at: usize) -> usize
    requires { at + history_size e.now ≤ length words.old }
    ensures { Put (history_words (plain_entry e.now)) words.old at words.new result }
{
    let figures = [
        e.part.number(),
        e.certified.number(),
        e.departed_by.0,
        u64::from(e.returned),
        e.absences_len as u64,
    ];
    let at = put(&figures, words, at);
    let at = put_absences(e, words, at);
    let at = put(&[e.marks_len as u64], words, at);
    put(&e.marks[..e.marks_len as usize], words, at)
}

pub fn put_entry(e: &Entry, words: &mut [u64], at: usize) -> usize
    requires { at + entry_size e.now ≤ length words.old }
    ensures { Put (entry_words (plain_entry e.now)) words.old at words.new result }
{
    let at = put_head(e, words, at);
    let at = put(&e.routes[..e.routes_len as usize], words, at);
    let at = put(&e.core[..e.core_len as usize], words, at);
    let at = put_edges(e, words, at);
    put_history(e, words, at)
}

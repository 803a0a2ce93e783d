// The counts read from a snapshot's words, two words each.
ghost use Rattle.std.specs.Prelude.{◌≡◌, ◌≤◌, ◌*◌, [], length};
ghost use Rattle.lists.specs.Lists.{rows};
ghost use Rattle.rules.specs.Snapshot.{count_in, count_sound};
ghost use Rattle.store.specs.Counts.{counts_in, plain_count};
ghost use Rattle.snapshots.specs.Restore.{Counted};

use lists::slices::{part, word_at};
use store::counts::{Count, Counts};
use types::{Shard, is_shard};

// A count is of at least one entry.
fn is_count(words: &[u64]) -> bool
    ensures { result ≡ count_sound words.now }
{
    is_shard(word_at(words, 0)) && 1 <= word_at(words, 1)
}

fn read_count(words: &[u64]) -> Count
    ensures { plain_count result ≡ count_in words.now }
{
    Count {
        shard: Shard(word_at(words, 0)),
        rebuilt: word_at(words, 1),
    }
}

// So many counts put in, as long as each is such as is written and comes behind those before it; whether all are.
pub fn count_all(counts: &mut Counts, words: &[u64], count: usize) -> bool
    requires { (counts_in counts.old ≡ []) × (count ≤ 32) × (2 * count ≤ length words.now) }
    ensures { Counted (rows 2 count words.now) counts.new result }
{
    for i in 0..count {
        let row = part(words, 2 * i, 2);
        let c = read_count(row);
        if !is_count(row) {
            return false;
        }
        if !counts.is_last(c.shard) {
            return false;
        }
        counts.push(c);
    }
    true
}

// The counts, by rising shard: how many entries the abandonment records of each shard rebuilt.
ghost use Rattle.std.specs.Prelude.{◌≡◌, ◌+◌, ◌≤◌, ◌<◌, min, map};
ghost use Rattle.lists.specs.Lists.{Ascending};
ghost use Rattle.lists.specs.Front.{held};
ghost use Rattle.rules.specs.Numbers.{max_count};
ghost use Rattle.rules.specs.Plain.{counted_shard};
ghost use Rattle.store.specs.Props.{Ascending-prop};
ghost use Rattle.store.specs.Stored.{plain_count};

use lists::front::Front;
use lists::sorted;
use types::Shard;

#[derive(Clone, Copy)]
pub struct Count {
    pub shard: Shard,
    pub rebuilt: u64,
}

#[derive(Clone, Copy)]
pub struct Counts {
    pub front: Front<Count, 32>,
    pub ghost rising: { Ascending counted_shard (map plain_count (held front)) } by { Ascending-prop counted_shard (map plain_count (held front)) },
}

// Two counts added up, at most the largest word.
fn add(a: u64, b: u64) -> u64
    ensures { result ≡ min (a + b) max_count }
{
    a.saturating_add(b)
}

impl Count {
    ghost use Rattle.rules.specs.Calls.{raised};

    // The count after n more.
    fn raised(self, n: u64) -> Count
        ensures { plain_count result ≡ raised n (plain_count self) }
    {
        Count {
            rebuilt: add(self.rebuilt, n),
            ..self
        }
    }
}

impl Counts {
    ghost use Rattle.std.specs.Prelude.{false, [], ◌∷◌, ◌++◌};
    ghost use Rattle.lists.specs.Lists.{all, has, concat_map};
    ghost use Rattle.lists.specs.Arrays.{place, rank, insert_at};
    ghost use Rattle.rules.specs.Calls.{counted, no_count_for};
    ghost use Rattle.rules.specs.Readings.{rebuilt_in};
    ghost use Rattle.rules.specs.Snapshot.{count_words};
    ghost use Rattle.store.specs.Counts.{Holds, counts_in, is_of, is_under};

    pub fn new() -> Counts
        ensures { Holds [] result }
    {
        let c = Count {
            shard: Shard(0),
            rebuilt: 0,
        };
        Counts {
            front: Front::new(c),
        }
    }

    fn find(&self, shard: Shard) -> Option<usize>
        ensures { result ≡ place (is_of shard.0) 0 (counts_in self.now) }
    {
        sorted::find(self.front.as_slice(), |c| c.shard == shard)
    }

    fn has(&self, shard: Shard) -> bool
        ensures { result ≡ has counted_shard shard.0 (counts_in self.now) }
    {
        self.find(shard).is_some()
    }

    // How many counts are of a lower shard.
    fn rank(&self, shard: Shard) -> usize
        ensures { result ≡ rank (is_under shard.0) (counts_in self.now) }
    {
        sorted::rank(self.front.as_slice(), |c| c.shard < shard)
    }

    // The count put in at k.
    fn insert_at(&mut self, k: usize, c: Count)
        requires { (k ≤ self.old.front.len) × (self.old.front.len < 32) × Ascending counted_shard (insert_at k (plain_count c) (counts_in self.old)) }
        ensures { Holds (insert_at k (plain_count c) (counts_in self.old)) self.new }
    {
        self.front.insert_at(k, c);
    }

    // Whether the shard is above all that are counted.
    pub fn is_last(&self, shard: Shard) -> bool
        ensures { result ≡ all (is_under shard.0) (counts_in self.now) }
    {
        self.rank(shard) == self.front.len
    }

    // A count of a shard above all others put behind them.
    pub fn push(&mut self, c: Count)
        requires { (self.old.front.len < 32) × Ascending counted_shard (counts_in self.old ++ plain_count c ∷ []) }
        ensures { Holds (counts_in self.old ++ plain_count c ∷ []) self.new }
    {
        self.front.push(c);
    }

    // Whether n entries cannot be counted with the shard, as it has no count and there is room for none.
    pub fn is_full_for(&self, shard: Shard, n: u64) -> bool
        ensures { result ≡ no_count_for shard.0 n (counts_in self.now) }
    {
        let is_full = !self.has(shard) && 32 <= self.front.len;
        0 < n && is_full
    }

    // n more entries counted with the shard, whose first opens its count.
    pub fn add(&mut self, shard: Shard, n: u64)
        requires { no_count_for shard.0 n (counts_in self.old) ≡ false }
        ensures { Holds (counted shard.0 n (counts_in self.old)) self.new }
    {
        if n == 0 {
            return;
        }
        let Some(i) = self.find(shard) else {
            let k = self.rank(shard);
            let c = Count { shard, rebuilt: n };
            self.insert_at(k, c);
            return;
        };
        let c = self.front.items[i];
        self.front.set(i, c.raised(n));
    }

    // All counts added up.
    pub fn sum(&self) -> u64
        ensures { result ≡ rebuilt_in (counts_in self.now) }
    {
        let mut sum: u64 = 0;
        for c in self.front.as_slice() {
            sum = add(sum, c.rebuilt);
        }
        sum
    }

    // As words, shard and count of each.
    pub fn pairs(&self) -> Front<u64, 64>
        ensures { held result ≡ concat_map count_words (counts_in self.now) }
    {
        let mut words = Front::new(0);
        for c in self.front.as_slice() {
            words.push(c.shard.0);
            words.push(c.rebuilt);
        }
        words
    }
}

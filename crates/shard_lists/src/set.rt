// A set of shards, rising: what claimants, counterparts and departures are gathered in before they are written out. At most 32 departures
// and eight shards of a trie come together.
ghost use Rattle.std.specs.Prelude.{◌+◌, ◌≤◌, ◌<◌, ◌++◌, ◌∷◌, [], length};
ghost use Rattle.lists.specs.Lists.{Ascending, include, include_all, self as itself};
ghost use Rattle.lists.specs.Front.{held};
ghost use Rattle.store.specs.Props.{Ascending-prop};

use lists::front::Front;
use lists::sorted;
use readings::reply;
use types::Shard;
use types::refusal::Refusal;

#[derive(Clone, Copy)]
pub struct Set {
    pub shards: Front<u64, 40>,
    pub ghost rising: { Ascending itself (held shards) } by { Ascending-prop itself (held shards) },
}

impl Set {
    ghost use Rattle.readings.specs.Reads.{Lists};
    ghost use Rattle.shard_lists.specs.Sets.{front, Holds};

    pub fn new() -> Set
        ensures { Holds [] result }
    {
        Set {
            shards: Front::new(0),
        }
    }

    // A shard above all that stand put behind them.
    pub fn push(&mut self, x: Shard)
        requires { (self.old.shards.len < 40) × Ascending itself (front self.old ++ x.0 ∷ []) }
        ensures { Holds (front self.old ++ x.0 ∷ []) self.new }
    {
        self.shards.push(x.0);
    }

    // The shard put in, unless it stands already.
    pub fn include(&mut self, x: Shard)
        requires { self.old.shards.len < 40 }
        ensures { Holds (include itself x.0 (front self.old)) self.new }
    {
        self.shards.len = sorted::include(&mut self.shards.items, self.shards.len, x.0);
    }

    // Each of some shards put in.
    pub fn include_all(&mut self, shards: &[u64])
        requires { self.old.shards.len + length shards.now ≤ 40 }
        ensures { Holds (include_all itself shards.now (front self.old)) self.new }
    {
        for x in shards {
            self.include(Shard(*x));
        }
    }

    // The shards written out, one word each.
    pub fn list(&self, lent: &mut [u64]) -> Result<u64, Refusal>
        ensures { Lists (front self.now) self.now.shards.len lent.old lent.new result }
    {
        reply::list(self.shards.as_slice(), self.shards.len, lent)
    }
}

// Shards in a slice of words.
ghost use Rattle.std.specs.Prelude.{◌≡◌};
ghost use Rattle.lists.specs.Lists.{all};
ghost use Rattle.rules.specs.Numbers.{is_shard};

use types::is_shard;

pub fn all_shards(s: &[u64]) -> bool
    ensures { result ≡ all is_shard s.now }
{
    s.iter().all(|n| is_shard(*n))
}

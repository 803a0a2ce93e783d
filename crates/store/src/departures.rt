// The departures on file, by rising shard: where each departed shard's chain was cut, and until when what it left is readable.
ghost use Rattle.std.specs.Prelude.{◌≡◌, ◌≤◌, ◌<◌, map, take};
ghost use Rattle.lists.specs.Lists.{Ascending};
ghost use Rattle.lists.specs.Front.{held};
ghost use Rattle.rules.specs.Plain.{shard_of};
ghost use Rattle.store.specs.Props.{Ascending-prop};
ghost use Rattle.store.specs.Stored.{plain_departure};

use lists::front::Front;
use lists::sorted;
use types::{Shard, Time};

// until is the stamp, and None while the departure has none.
#[derive(Clone, Copy)]
pub struct Departure {
    pub shard: Shard,
    pub cut: Time,
    pub until: Option<Time>,
}

#[derive(Clone, Copy)]
pub struct Departures {
    pub front: Front<Departure, 32>,
    pub ghost rising: { Ascending shard_of (map plain_departure (held front)) } by { Ascending-prop shard_of (map plain_departure (held front)) },
}

impl Departure {
    ghost use Rattle.rules.specs.Calls.{stamped};
    ghost use Rattle.rules.specs.Over.{is_owner, is_after, is_over};

    // Whether its shard owns the route.
    fn is_owner(self, route: u64) -> bool
        ensures { result ≡ is_owner route (plain_departure self) }
    {
        self.shard.owns(route)
    }

    // Whether its cut is after the anchor.
    fn is_after(self, anchor: Time) -> bool
        ensures { result ≡ is_after anchor.0 (plain_departure self) }
    {
        anchor < self.cut
    }

    pub fn is_over(self, route: u64, anchor: Time) -> bool
        ensures { result ≡ is_over anchor.0 route (plain_departure self) }
    {
        self.is_owner(route) && self.is_after(anchor)
    }

    // The departure stamped, unless it is stamped already.
    fn with_stamp(self, until: Time) -> Departure
        ensures { plain_departure result ≡ stamped until.0 (plain_departure self) }
    {
        Departure {
            until: self.until.or(Some(until)),
            ..self
        }
    }
}

impl Departures {
    ghost use Rattle.std.specs.Prelude.{[], ◌∷◌, ◌++◌};
    ghost use Rattle.lists.specs.Lists.{all, change, keep_by};
    ghost use Rattle.lists.specs.Arrays.{place, rank, insert_at};
    ghost use Rattle.rules.specs.Calls.{departed, stamped};
    ghost use Rattle.store.specs.Departures.{Holds, on_file, is_of, is_under, room_for};

    pub fn new() -> Departures
        ensures { Holds [] result }
    {
        let d = Departure {
            shard: Shard(0),
            cut: Time(0),
            until: None,
        };
        Departures {
            front: Front::new(d),
        }
    }

    pub fn find(&self, shard: Shard) -> Option<usize>
        ensures { result ≡ place (is_of shard.0) 0 (on_file self.now) }
    {
        sorted::find(self.front.as_slice(), |d| d.shard == shard)
    }

    // How many departures are of a lower shard.
    fn rank(&self, shard: Shard) -> usize
        ensures { result ≡ rank (is_under shard.0) (on_file self.now) }
    {
        sorted::rank(self.front.as_slice(), |d| d.shard < shard)
    }

    // The departure put in at k.
    fn insert_at(&mut self, k: usize, d: Departure)
        requires { (k ≤ self.old.front.len) × (self.old.front.len < 32) × Ascending shard_of (insert_at k (plain_departure d) (on_file self.old)) }
        ensures { Holds (insert_at k (plain_departure d) (on_file self.old)) self.new }
    {
        self.front.insert_at(k, d);
    }

    // Whether the shard is above all on file.
    pub fn is_last(&self, shard: Shard) -> bool
        ensures { result ≡ all (is_under shard.0) (on_file self.now) }
    {
        self.rank(shard) == self.front.len
    }

    // A departure of a shard above all on file put behind them.
    pub fn push(&mut self, d: Departure)
        requires { (self.old.front.len < 32) × Ascending shard_of (on_file self.old ++ plain_departure d ∷ []) }
        ensures { Holds (on_file self.old ++ plain_departure d ∷ []) self.new }
    {
        self.front.push(d);
    }

    // The shard's departure put on file with its cut, unless one stands already: the first cut holds. This and a stamp are done in place, so
    // that nothing is copied.
    pub fn depart(&mut self, shard: Shard, cut: Time)
        requires { room_for self.old shard.0 cut.0 }
        ensures { Holds (departed shard.0 cut.0 (on_file self.old)) self.new }
    {
        let None = self.find(shard) else {
            return;
        };
        let d = Departure {
            shard,
            cut,
            until: None,
        };
        let k = self.rank(shard);
        self.insert_at(k, d);
    }

    // The shard's departure stamped, unless it is stamped already or not on file: the first stamp holds.
    pub fn stamp(&mut self, shard: Shard, until: Time)
        ensures { Holds (change shard_of shard.0 (stamped until.0) (on_file self.old)) self.new }
    {
        let Some(i) = self.find(shard) else {
            return;
        };
        let d = self.front.items[i];
        self.front.set(i, d.with_stamp(until));
    }

    // Those whose flag is up, in their order.
    pub fn retain(self, stay: [bool; 32]) -> Departures
        ensures { Holds (keep_by (take self.front.len stay) (on_file self)) result }
    {
        let mut x = self;
        x.front.retain(&stay[..self.front.len]);
        x
    }
}

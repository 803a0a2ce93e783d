// The departures on file as a prune reads them.
ghost use Rattle.std.specs.Prelude.{◌<◌, ◌≡◌, true};
ghost use Rattle.std.specs.Int.Count.{count_leading_zeros};
ghost use Rattle.rules.specs.Numbers.{is_shard};
ghost use Rattle.rules.specs.Prune.{readable};
ghost use Rattle.store.specs.Departures.{plain_departure};

use lists::front::Front;
use store::departures::{Departure, Departures};
use types::{Shard, Time, led};

// A departure's shard, the leading zeros of the shard, its cut, and whether it is readable at the clock. The zeros are there because
// `Shard::owns` would count them anew for each route.
#[derive(Clone, Copy)]
pub struct Seen {
    pub shard: Shard,
    pub zeros: u32,
    pub cut: Time,
    pub is_readable: bool,
    pub ghost real: { is_shard shard.0 ≡ true },
    pub ghost topped: { zeros ≡ count_leading_zeros 64 shard.0 },
    pub ghost within: { zeros < 64 },
}

#[derive(Clone, Copy)]
pub struct View {
    pub seen: Front<Seen, 32>,
}

// Readable unstamped, or while the clock is not past until.
pub fn is_readable(d: Departure, time: Time) -> bool
    ensures { result ≡ readable time.0 (plain_departure d) }
{
    d.until.is_none_or(|until| time <= until)
}

impl Seen {
    ghost use Rattle.rules.specs.Good.{GoodDeparture};
    ghost use Rattle.rules.specs.Over.{is_owner, is_after, is_over, counts_before};
    ghost use Rattle.judge.specs.View.{Sees, departure_of};

    #[tactic(auto, using(crate::proofs::Filling::few_zeros))]
    pub fn of(d: Departure, time: Time) -> Seen
        requires { GoodDeparture (plain_departure d) }
        ensures { Sees time.0 (plain_departure d) result }
    {
        Seen {
            shard: d.shard,
            zeros: d.shard.0.leading_zeros(),
            cut: d.cut,
            is_readable: is_readable(d, time),
        }
    }

    // Whether its shard owns the route.
    pub fn is_owner(self, route: u64) -> bool
        ensures { result ≡ is_owner route (departure_of self) }
    {
        (led(route) >> self.zeros) == self.shard.0
    }

    // Whether its cut is after the anchor.
    pub fn is_after(self, anchor: Time) -> bool
        ensures { result ≡ is_after anchor.0 (departure_of self) }
    {
        anchor < self.cut
    }

    pub fn is_over(self, route: u64, anchor: Time) -> bool
        ensures { result ≡ is_over anchor.0 route (departure_of self) }
    {
        self.is_owner(route) && self.is_after(anchor)
    }

    // The smaller cut counts, the lower shard on equal cuts.
    pub fn counts_before(self, other: Seen) -> bool
        ensures { result ≡ counts_before (departure_of self) (departure_of other) }
    {
        (self.cut, self.shard) <= (other.cut, other.shard)
    }
}

impl View {
    ghost use Rattle.rules.specs.Good.{GoodDepartures};
    ghost use Rattle.store.specs.Departures.{on_file};
    ghost use Rattle.judge.specs.View.{Shows};
    ghost use Rattle.judge.specs.Answers.{SaysNamed};

    pub fn of(d: Departures, time: Time) -> View
        requires { GoodDepartures (on_file d) }
        ensures { Shows (on_file d) time.0 result }
    {
        let none = Seen {
            shard: Shard(1),
            zeros: 63,
            cut: Time(0),
            is_readable: false,
        };
        let mut seen = Front::new(none);
        for departure in d.front.as_slice() {
            seen.push(Seen::of(*departure, time));
        }
        View { seen }
    }

    // Rule 3's question: whether the shard that names an entry has a readable departure.
    pub fn has_readable(&self, departed_by: Shard) -> bool
        ensures { SaysNamed self.now departed_by.0 result }
    {
        self.seen
            .as_slice()
            .iter()
            .any(|d| departed_by == d.shard && d.is_readable)
    }
}

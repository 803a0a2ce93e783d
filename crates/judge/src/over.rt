// Which departure counts over a route, in the three steps of the text: the owners of the route, of these the cuts after the anchor, of these the
// smallest. What passes from step to step is which departures are left.
ghost use Rattle.std.specs.Prelude.{◌≡◌, ◌<◌, [], option_to_list};
ghost use Rattle.lists.specs.Lists.{Every};
ghost use Rattle.lists.specs.Front.{held};
ghost use Rattle.judge.specs.Over.{OnFile, SaysFirst, LeavesOwners, LeavesCuts, LeavesSmallest, LeavesCounting};

use crate::views::View;
use lists::front::Front;
use types::Time;

// The departures that are left, by their places on file.
#[derive(Clone, Copy)]
pub struct Left {
    pub places: Front<u8, 32>,
}

impl Left {
    fn none() -> Left
        ensures { held result.places ≡ [] }
    {
        Left {
            places: Front::new(0),
        }
    }

    // One place, or none.
    fn of(place: Option<u8>) -> Left
        ensures { held result.places ≡ option_to_list place }
    {
        let mut left = Left::none();
        if let Some(place) = place {
            left.places.push(place);
        }
        left
    }
}

// First: of the departures on file those whose shard owns the route.
fn owners(view: &View, route: u64) -> Left
    ensures { LeavesOwners view.now route result }
{
    let mut left = Left::none();
    'departures: for j in 0..view.seen.len {
        if !view.seen.items[j].is_owner(route) {
            continue 'departures;
        }
        left.places.push(j as u8);
    }
    left
}

// Second: of the owners those whose cut is after the anchor.
fn cuts_after(view: &View, owners: &Left, anchor: Time) -> Left
    requires { OnFile view.now owners.now }
    ensures { LeavesCuts view.now anchor.0 owners.now result }
{
    let mut left = Left::none();
    'departures: for place in owners.places.as_slice() {
        if !view.seen.items[*place as usize].is_after(anchor) {
            continue 'departures;
        }
        left.places.push(*place);
    }
    left
}

// Whether the departure at a place counts before the one at the other, if there is another.
fn counts_first(view: &View, place: u8, other: Option<u8>) -> bool
    requires { (place < view.now.seen.len) × Every (λ j. j < view.now.seen.len) (option_to_list other) }
    ensures { SaysFirst view.now place other result }
{
    let Some(other) = other else {
        return true;
    };
    view.seen.items[place as usize].counts_before(view.seen.items[other as usize])
}

// Third: of the cuts the smallest, the lower shard on equal cuts; found downwards with the first so far beside.
fn smallest_cut(view: &View, cuts: &Left) -> Left
    requires { OnFile view.now cuts.now }
    ensures { LeavesSmallest view.now cuts.now result }
{
    let mut first = None;
    let mut k = cuts.places.len;
    'departures: while 0 < k {
        k -= 1;
        let place = cuts.places.items[k];
        if !counts_first(view, place, first) {
            continue 'departures;
        }
        first = Some(place);
    }
    Left::of(first)
}

// All three: the departure that counts over the route, or none.
pub fn departure_over(view: &View, route: u64, anchor: Time) -> Left
    ensures { LeavesCounting view.now route anchor.0 result }
{
    let owning = owners(view, route);
    let after = cuts_after(view, &owning, anchor);
    smallest_cut(view, &after)
}

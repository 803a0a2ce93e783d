// What an entry's routes ask of the departures: rule 4, and which departures the entry still needs.
ghost use Rattle.std.specs.Prelude.{◌≡◌, ◌&&◌, true, take};
ghost use Rattle.rules.specs.Plain as plain;
ghost use Rattle.rules.specs.Plain.{is_remote};
ghost use Rattle.rules.specs.Numbers.{is_shard};
ghost use Rattle.rules.specs.Over.{is_over};
ghost use Rattle.rules.specs.Prune.{holds};
ghost use Rattle.entry.specs.Entry.{plain_entry};
ghost use Rattle.judge.specs.View.{zeros_of, departure_of};
ghost use Rattle.judge.specs.Answers.{SaysAnswerable, SaysCovered};

use crate::over::departure_over;
use crate::views::{Seen, View};
use entry::Entry;
use types::{Shard, Time};

// Rule 4's question: over some remote route there is no departure, or the one that counts is readable: all that is left of the departures over
// it is. Loops over routes and departures, left by their label, are a form that the paper names.
pub fn is_answerable(e: &Entry, local: Shard, view: &View) -> bool
    ensures { SaysAnswerable view.now (take e.now.routes_len e.now.routes) e.now.anchor.0 local.0 result }
{
    let n = e.routes_len as usize;
    let anchor = e.anchor;
    let mut stands = false;
    'routes: for i in 0..n {
        let route = e.routes[i];
        if local.owns(route) {
            continue 'routes;
        }
        let counting = departure_over(view, route, anchor);
        for place in counting.places.as_slice() {
            if !view.seen.items[*place as usize].is_readable {
                continue 'routes;
            }
        }
        stands = true;
        break 'routes;
    }
    stands
}

// Whether a departure is over a route that local does not own.
fn is_over_remote(route: u64, local: Shard, d: Seen, anchor: Time) -> bool
    ensures { result ≡ (is_remote local.0 route && is_over anchor.0 route (departure_of d)) }
{
    !local.owns(route) && d.is_over(route, anchor)
}

// Whether a departure is over some remote route.
fn covers_some(e: &Entry, local: Shard, d: Seen) -> bool
    ensures { SaysCovered d (take e.now.routes_len e.now.routes) e.now.anchor.0 local.0 result }
{
    let n = e.routes_len as usize;
    let anchor = e.anchor;
    e.routes[..n]
        .iter()
        .any(|route| is_over_remote(*route, local, d, anchor))
}

// Whether an entry needs a departure: its shard names the entry, or it is over a remote route of it.
pub fn needs(e: &Entry, local: Shard, x: Seen) -> bool
    ensures { (d : plain.Departure) → is_shard d.shard ≡ true → x.shard.0 ≡ d.shard → x.zeros ≡ zeros_of d → x.cut.0 ≡ d.cut → result ≡ holds local.0 d (plain_entry e.now) }
{
    e.departed_by == x.shard || covers_some(e, local, x)
}

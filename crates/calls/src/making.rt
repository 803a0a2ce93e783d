// Making a ledger.
ghost use Rattle.std.specs.Prelude.{◌≡◌, [], ◌∷◌};
ghost use Rattle.lists.specs.Lists.{all_of};
ghost use Rattle.rules.specs.Numbers.{is_span};
ghost use Rattle.rules.specs.Calls.{making};
ghost use Rattle.ledger.specs.Meets.{Meets};
ghost use Rattle.calls.specs.Fresh.{Fresh};

use entry::Entry;
use ledger::{Done, Ledger};
use store::counts::Counts;
use store::departures::Departures;
use store::issuers::Issuers;
use store::roster::Roster;
use types::refusal::Refusal;
use types::{Shard, is_shard, is_span};

// An empty ledger.
fn empty(local: Shard, validity: u64, core_span: u64, leg_span: u64) -> Ledger
    ensures { Fresh local.0 validity core_span leg_span result }
{
    let e = Entry::blank();
    Ledger {
        local,
        validity,
        core_span,
        leg_span,
        roster: Roster::new(),
        entries: [e; 48],
        issuers: Issuers::new(),
        departures: Departures::new(),
        counts: Counts::new(),
    }
}

fn are_spans(validity: u64, core_span: u64, leg_span: u64) -> bool
    ensures { result ≡ all_of (is_span validity ∷ is_span core_span ∷ is_span leg_span ∷ []) }
{
    is_span(validity) && is_span(core_span) && is_span(leg_span)
}

// A ledger for a shard, with its three spans, which come as words and stay the paper's three fields. A refused making hands back the empty ledger of shard 1 with spans of 1.
pub fn new(local: Shard, validity: u64, core_span: u64, leg_span: u64) -> Done
    ensures { Meets (making local.0 validity core_span leg_span) [] [] result }
{
    if !is_shard(local.0) {
        return Done {
            said: Err(Refusal::NoLocal),
            ledger: empty(Shard(1), 1, 1, 1),
        };
    }
    if !are_spans(validity, core_span, leg_span) {
        return Done {
            said: Err(Refusal::NoSpan),
            ledger: empty(Shard(1), 1, 1, 1),
        };
    }
    Done {
        said: Ok([0; 3]),
        ledger: empty(local, validity, core_span, leg_span),
    }
}

// The five rules.
ghost use Rattle.std.specs.Prelude.{◌≡◌, ◌||◌};
ghost use Rattle.lists.specs.Lists.{filled};
ghost use Rattle.rules.specs.Plain.{is_settling};
ghost use Rattle.entry.specs.Entry.{plain_entry};
ghost use Rattle.judge.specs.Verdict.{unless, RuledByRoutes, Judged};

use crate::routes;
use crate::views::View;
use entry::{Certificate, Entry};
use types::{Shard, Time};

// Reported holds the word that the report writes of covered, 0 or 1; an entry that only falls is not reported.
#[derive(Clone, Copy)]
pub enum Verdict {
    Stands,
    Falls,
    Reported(u64),
}

// By a rule that lets an entry stand, or else fall so.
fn unless(stands: bool, fall: Verdict) -> Verdict
    ensures { result ≡ unless fall stands }
{
    if stands { Verdict::Stands } else { fall }
}

// Rule 2: leg, remainder or any absence.
#[tactic(auto, unfolding(entry::specs::Entry::plain_entry))]
fn is_settling(e: &Entry) -> bool
    ensures { result ≡ (is_settling (plain_entry e.now).part || filled (plain_entry e.now).absences) }
{
    e.part.is_settling() || 0 < e.absences_len
}

// Rules 4 and 5, of an entry that no record names and that has no absence.
fn by_routes(e: &Entry, local: Shard, validity: u64, time: Time, view: &View) -> Verdict
    ensures { RuledByRoutes view.now time.0 local.0 validity (plain_entry e.now) result }
{
    if e.certified != Certificate::Missing && e.reaches_beyond(local) {
        return unless(routes::is_answerable(e, local, view), Verdict::Reported(0));
    }
    unless(time.is_before(e.at, validity), Verdict::Falls)
}

// The verdict on an entry at a clock, by the first rule that fits.
pub fn judge(
    e: &Entry,
    local: Shard,
    validity: u64,
    leg_span: u64,
    time: Time,
    view: &View,
) -> Verdict
    ensures { Judged view.now time.0 local.0 validity leg_span (plain_entry e.now) result }
{
    let departed_by = e.departed_by;
    let settles = is_settling(e);
    let named = 0 < departed_by.0;
    let by_window = settles; // rule 2, ahead of rule 3
    if e.is_awaiting() {
        return Verdict::Stands; // rule 1
    }
    if by_window {
        return unless(time.is_before(e.end, leg_span), Verdict::Falls);
    }
    if named {
        return unless(view.has_readable(departed_by), Verdict::Reported(1));
    }
    by_routes(e, local, validity, time, view)
}

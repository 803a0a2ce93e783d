// Prune: the entries that no longer stand fall, some with a report, and the departures that no entry needs any more go with them.
ghost use Rattle.std.specs.Prelude.{◌≤◌, ◌≡◌, not, length};
ghost use Rattle.lists.specs.Lists.{any};
ghost use Rattle.rules.specs.Calls.{after_prune};
ghost use Rattle.types.specs.Refusals.{refused_in};
ghost use Rattle.entry.specs.Entry.{plain_entry};
ghost use Rattle.ledger.specs.Contents.{Held, contents};
ghost use Rattle.ledger.specs.Meets.{Meets, saying};
ghost use Rattle.sweeps.specs.Pruning.{begun, refusal_by, Needed, Judges};

use entry::Entry;
use judge::routes::needs;
use judge::verdicts::{Verdict, judge};
use judge::views::View;
use ledger::{Ledger, Said};
use lists::slices::part;
use store::leaving::without_dropped;
use types::refusal::Refusal;
use types::widths::{REPORT_WORDS, REPORTS_ROOM};
use types::{Shard, Time, is_time};

// By place in the roster who stays, by place on file which departures those who stay need (flags in fixed memory, since there is no heap),
// whether some departure may still be unneeded, the words of the reports, and how many reports and how many fell.
#[derive(Clone, Copy)]
pub struct Pruning {
    pub stay: [bool; 48],
    pub needed: [bool; 32],
    pub some_unneeded: bool,
    pub words: [u64; REPORTS_ROOM],
    pub reports: usize,
    pub fallen: u64,
}

// The flags of the departures, up also for those that the entry needs.
fn with_needs(mut flags: [bool; 32], e: &Entry, local: Shard, view: &View) -> [bool; 32]
    ensures { Needed local.0 (plain_entry e.now) view.now flags result }
{
    // By place: the flags go beside the view's items.
    for j in 0..view.seen.len {
        flags[j] = flags[j] || needs(e, local, view.seen.items[j]);
    }
    flags
}

// Whether some flag is down.
fn some_down(flags: &[bool]) -> bool
    ensures { result ≡ any not flags.now }
{
    flags.iter().any(|is_up| !*is_up)
}

impl Pruning {
    fn begun() -> Pruning
        ensures { result ≡ begun }
    {
        Pruning {
            stay: [false; 48],
            needed: [false; 32],
            some_unneeded: true,
            words: [0; REPORTS_ROOM],
            reports: 0,
            fallen: 0,
        }
    }

    // One pass over the roster, by place since flags stand by place, judges each entry, and puts what it needs or reports beside; once every departure is needed, no more is
    // asked.
    fn of(ledger: &Ledger, time: Time) -> Pruning
        requires { Held ledger.now }
        ensures { Judges ledger.now time.0 result }
    {
        let local = ledger.local;
        let view = View::of(ledger.departures, time);
        let mut p = Pruning::begun();
        for i in 0..ledger.roster.len {
            let slot = ledger.roster.slots[i];
            let e = &ledger.entries[slot];
            match judge(e, local, ledger.validity, ledger.leg_span, time, &view) {
                Verdict::Stands => {
                    p.stay[i] = true;
                    if p.some_unneeded {
                        p.needed = with_needs(p.needed, e, local, &view);
                        p.some_unneeded = some_down(&p.needed[..view.seen.len]);
                    }
                }
                Verdict::Falls => p.fallen += 1,
                Verdict::Reported(covered) => {
                    let at = REPORT_WORDS * p.reports;
                    e.tx.put_item(&[covered, e.charge], &mut p.words, at);
                    p.reports += 1;
                    p.fallen += 1;
                }
            }
        }
        p
    }
}

// The clock and the room for so many reports, by the table.
fn check(time: Time, reports: usize, room: usize) -> Result<(), Refusal>
    requires { reports ≤ 48 }
    ensures { refused_in result ≡ refusal_by time.0 reports room }
{
    if !is_time(time.0) {
        return Err(Refusal::NoTime);
    }
    if room < REPORT_WORDS * reports {
        return Err(Refusal::ListShort);
    }
    Ok(())
}

// Lets fall those that no longer stand, writes the reports, and answers how many it wrote and how many fell.
pub fn prune(ledger: &mut Ledger, time: Time, lent: &mut [u64]) -> Said
    requires { Held ledger.old }
    ensures { Meets (after_prune time.0 (length lent.old) (contents ledger.old)) lent.old lent.new (saying result ledger.new) }
{
    let p = Pruning::of(ledger, time);
    check(time, p.reports, lent.len())?;
    let n = REPORT_WORDS * p.reports;
    lent[..n].copy_from_slice(part(&p.words, 0, n));
    let roster = ledger.roster;
    let left = roster.retain(p.stay);
    ledger.roster = left;
    ledger.issuers = without_dropped(ledger.issuers, roster, p.stay);
    ledger.departures = ledger.departures.retain(p.needed);
    Ok([p.reports as u64, p.fallen, 0])
}

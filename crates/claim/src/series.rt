// Prunes at each clock in turn.
ghost use Rattle.std.specs.Prelude.{◌*◌, ◌≤◌, ◌≡◌, true, ◌&&◌, leb, length};
ghost use Rattle.lists.specs.Lists.{all};
ghost use Rattle.rules.specs.Numbers.{is_time};
ghost use Rattle.ledger.specs.Contents.{Held, contents};
ghost use Rattle.claim.specs.Series.{steady, Series};
ghost use Rattle.rules.specs.Widths.{report_room};

use ledger::Ledger;
use sweeps::prune::prune;
use types::widths::{REPORT_WORDS, REPORTS_ROOM};
use types::{Time, is_time};

// Whether the clocks are times and never fall: the first that falls or is no time ends the search.
fn is_nondecreasing(clocks: &[u64]) -> bool
    ensures { result ≡ steady 0 clocks.now }
{
    let mut last = 0;
    for clock in clocks {
        if *clock < last || !is_time(*clock) {
            return false;
        }
        last = *clock;
    }
    true
}

// Whether there is room for a report of each of the 48 entries, and for two numbers of each of so many prunes.
fn has_room(prunes: usize, reports: usize, counts: usize) -> bool
    ensures { result ≡ leb report_room reports && leb (2 * prunes) counts }
{
    REPORTS_ROOM <= reports && prunes <= counts / 2
}

// Whether prunes at these clocks may be made with lists of these lengths.
pub fn may_prune(clocks: &[u64], reports: usize, counts: usize) -> bool
    ensures { result ≡ steady 0 clocks.now && (leb report_room reports && leb (2 * length clocks.now) counts) }
{
    is_nondecreasing(clocks) && has_room(clocks.len(), reports, counts)
}

// How many fell and how many reports were written in all, the ledger after the first prunes that the caller asked for, and after the last.
#[derive(Clone, Copy)]
pub struct PrunedAll {
    pub fallen: u64,
    pub written: usize,
    pub between: Ledger,
    pub after: Ledger,
}

// A prune at each clock in turn, the reports one prune's after the other's, and the numbers of each prune: two words for each clock, as the
// claim says them. The ledger after the first k is kept beside.
pub fn prune_all(
    start: Ledger,
    clocks: &[u64],
    k: usize,
    reports: &mut [u64],
    counts: &mut [u64],
) -> PrunedAll
    requires { Held start × (all is_time clocks.now ≡ true) × (report_room ≤ length reports.old) × (2 * length clocks.now ≤ length counts.old) }
    ensures { Series k clocks.now (contents start) reports.old reports.new counts.old counts.new result }
{
    let mut ledger = start;
    let mut between = start;
    let mut fallen = 0;
    let mut written = 0;
    // By place, since the clocks, the counts, and k go on together.
    for i in 0..clocks.len() {
        let clock = Time(clocks[i]);
        let at = REPORT_WORDS * written;
        let answered = prune(&mut ledger, clock, &mut reports[at..]);
        let said = answered.unwrap_or([0; 3]); // never refused: a time, and room enough
        let reported = said[0];
        let gone = said[1];
        counts[2 * i] = reported;
        counts[2 * i + 1] = gone;
        let is_early = i < k;
        if is_early {
            between = ledger;
        }
        fallen += gone;
        written += reported as usize;
    }
    PrunedAll {
        fallen,
        written,
        between,
        after: ledger,
    }
}

// A ledger that goes out as the bytes of its snapshot, and what is told beside it. Nothing is written before all is known to fit.
ghost use Rattle.std.specs.Prelude.{◌≤◌, length};
ghost use Rattle.rules.specs.Widths.{report_room};
ghost use Rattle.rules.specs.Calls.{after_prune};
ghost use Rattle.ledger.specs.Contents.{contents, Held};
ghost use Rattle.hosts.specs.Hosts.{handing, Gives, Tells};

use ledger::Ledger;
use snapshots::write::{SNAPSHOT_ROOM, whole_snapshot};
use sweeps::prune::prune;
use types::Time;
use types::refusal::Refusal;
use types::widths::{REPORT_WORDS, REPORTS_ROOM};
use word_bytes::put_words;

// A prune's two numbers, and then a report of each entry.
pub const TOLD_ROOM: usize = 2 + REPORTS_ROOM;

// The ledger to the front of one slice and the words to the front of the other.
pub fn hand_out(ledger: &Ledger, told: &[u64], out: &mut [u8], reports: &mut [u8]) -> u64
    requires held { Held ledger.now }
    requires few { length told.now ≤ 146 }
    ensures { Gives (handing 0 (contents ledger.now) told.now (length out.old) (length reports.old)) out.old out.new reports.old reports.new result }
{
    let mut words = [0; SNAPSHOT_ROOM];
    let n = whole_snapshot(ledger, &mut words);
    if out.len() < 8 * n || reports.len() < 8 * told.len() {
        return Refusal::ListShort.number();
    }
    put_words(&words[..n], out);
    put_words(told, reports);
    0
}

// The ledger pruned, and the prune's numbers, and behind them its reports, put to the front of a list; how many words these are.
pub fn pruned(
    ledger: &mut Ledger,
    time: Time,
    told: &mut [u64; TOLD_ROOM],
) -> Result<usize, Refusal>
    requires { Held ledger.old }
    ensures { Tells (after_prune time.0 report_room (contents ledger.old)) told.new ledger.new result }
{
    let [reported, fallen, _] = prune(ledger, time, &mut told[2..])?;
    told[0] = reported;
    told[1] = fallen;
    Ok(2 + REPORT_WORDS * reported as usize)
}

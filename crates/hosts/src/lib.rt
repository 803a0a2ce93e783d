// The calls that a host in another language makes. Each is lent slices of bytes: a ledger comes in and goes out as its snapshot, and nothing
// is kept between two calls. A call that is refused gives its number and writes no byte.
#![tactic(auto)]

mod incoming;
mod outgoing;

ghost use Rattle.std.specs.Prelude.{[], length};
ghost use Rattle.rules.specs.Calls.{making};
ghost use Rattle.hosts.specs.Hosts.{made_for_host, read_for_host, pruned_for_host, ledger_read, ledger_pruned, Gives, ComesAgain};

use calls::making::new;
use incoming::restored;
use outgoing::{hand_out, pruned};
use types::refusal::Refusal;
use types::{Shard, Time};

// An empty ledger is made, and goes out.
pub fn make(local: u64, validity: u64, core_span: u64, leg_span: u64, out: &mut [u8]) -> u64
    ensures gives { Gives (made_for_host local validity core_span leg_span (length out.old)) out.old out.new [] [] result }
    ensures again { ComesAgain (made_for_host local validity core_span leg_span (length out.old)) (making local validity core_span leg_span).ledger result }
{
    let made = new(Shard(local), validity, core_span, leg_span);
    match made.said {
        Ok(_) => hand_out(&made.ledger, &[], out, &mut []),
        Err(refusal) => refusal.number(),
    }
}

// A ledger is read, and goes out. What is accepted is what the writer writes, so these bytes are its snapshot again.
pub fn read(snapshot: &[u8], out: &mut [u8]) -> u64
    ensures gives { Gives (read_for_host snapshot.now (length out.old)) out.old out.new [] [] result }
    ensures again { ComesAgain (read_for_host snapshot.now (length out.old)) (ledger_read snapshot.now) result }
{
    let read = restored(snapshot);
    if let Err(refusal) = read.said {
        return refusal.number();
    }
    if out.len() < snapshot.len() {
        return Refusal::ListShort.number();
    }
    out[..snapshot.len()].copy_from_slice(snapshot);
    0
}

// A ledger is read and pruned, and goes out with the prune's numbers and reports.
pub fn prune(snapshot: &[u8], time: u64, out: &mut [u8], reports: &mut [u8]) -> u64
    ensures gives { Gives (pruned_for_host snapshot.now time (length out.old) (length reports.old)) out.old out.new reports.old reports.new result }
    ensures again { ComesAgain (pruned_for_host snapshot.now time (length out.old) (length reports.old)) (ledger_pruned snapshot.now time) result }
{
    let mut read = restored(snapshot);
    if let Err(refusal) = read.said {
        return refusal.number();
    }
    let mut told = [0; outgoing::TOLD_ROOM];
    match pruned(&mut read.ledger, Time(time), &mut told) {
        Ok(n) => hand_out(&read.ledger, &told[..n], out, reports),
        Err(refused) => refused.number(),
    }
}

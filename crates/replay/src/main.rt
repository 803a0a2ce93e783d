// Runs call scripts: reads a script on standard input, makes its calls on the ledger, and writes a line of answer for each.
#![tactic(auto)]

mod changing;
mod dump;
mod lines;
mod reading;
mod replies;

use calls::making;
use script::{Line, Reader, Writer};
use types::Shard;

// Line by line to the end of the script, or to a line that is malformed or names a call that is not there. `repeat` says how often the next
// call is made, where one waits for its call.
#[tactic(auto, using(crate::proofs::Replied::did_held))]
fn main(rt: HostRuntime) {
    let mut reader = Reader::new(rt.stdin());
    let mut writer = Writer::new(rt.stdout());
    let mut numbers = [0; 8192];
    let mut lent = [0; 8192];
    let mut ledger = making::new(Shard(0), 0, 0, 0).ledger;
    let mut repeat = None;
    // Lines are counted for the answer to one that is malformed. Every loop must end, and no script has 2^64 lines.
    for at in 1..=u64::MAX {
        let Some(found) = reader.next_line() else {
            break;
        };
        let call = match script::parse(found, &mut numbers) {
            Line::Skip => continue,
            Line::Repeat(times) if repeat.is_none() => {
                repeat = Some(times);
                continue;
            }
            Line::Call(call) => call,
            _ => return replies::stop(&mut writer, at),
        };
        let times = repeat.take().unwrap_or(1);
        let reply = lines::carry_out(&mut ledger, call, &numbers, &mut lent, times);
        let list = &lent[..call.lent];
        replies::put_reply(&mut writer, call, reply, &ledger, list);
    }
    writer.flush();
}

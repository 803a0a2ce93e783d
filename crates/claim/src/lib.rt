// The one claim about every list of calls and every list of clocks after it, from a fresh ledger or a restored one: the calls are read from
// words, each is lent the ledger that the last left, and then the prunes are.
#![tactic(auto)]

mod running;
pub mod series;

ghost use Rattle.rules.specs.Calls.{making};
ghost use Rattle.rules.specs.Snapshot.{restoring};
ghost use Rattle.ledger.specs.Contents.{Held, contents};
ghost use Rattle.claim.specs.Claim.{Claims};

use calls::making::new;
use ledger::Ledger;
use running::run_calls;
use series::{PrunedAll, may_prune, prune_all};
use snapshots::restore::restore;
use types::Shard;

// The ledger before the prunes, and what the prunes made of it, where they may be made.
#[derive(Clone, Copy)]
pub struct RunAndPruned {
    pub before: Ledger,
    pub pruned: Option<PrunedAll>,
}

// The claim from any ledger that a call handed back. Clocks, k and the lists stay apart, since the claim names each.
pub fn run_and_prune_from(
    start: Ledger,
    calls: &[u64],
    clocks: &[u64],
    k: usize,
    lent: &mut [u64],
    reports: &mut [u64],
    counts: &mut [u64],
) -> RunAndPruned
    requires { Held start }
    ensures { Claims (contents start) calls.now clocks.now k lent.old lent.new
        reports.old reports.new counts.old counts.new result }
{
    let before = run_calls(start, calls, lent);
    if !may_prune(clocks, reports.len(), counts.len()) {
        let pruned = None;
        return RunAndPruned { before, pruned };
    }
    let pruned = Some(prune_all(before, clocks, k, reports, counts));
    RunAndPruned { before, pruned }
}

// The claim: a making, every list of calls, and then every list of clocks.
pub fn run_and_prune(
    local: Shard,
    validity: u64,
    core_span: u64,
    leg_span: u64,
    calls: &[u64],
    clocks: &[u64],
    k: usize,
    lent: &mut [u64],
    reports: &mut [u64],
    counts: &mut [u64],
) -> RunAndPruned
    ensures { Claims (making local.0 validity core_span leg_span).ledger calls.now clocks.now k lent.old lent.new
        reports.old reports.new counts.old counts.new result }
{
    let made = new(local, validity, core_span, leg_span);
    run_and_prune_from(made.ledger, calls, clocks, k, lent, reports, counts)
}

// The claim from a restored ledger: any words in place of the making, and where the reader refuses them what a refused making hands back.
pub fn restore_and_prune(
    words: &[u64],
    calls: &[u64],
    clocks: &[u64],
    k: usize,
    lent: &mut [u64],
    reports: &mut [u64],
    counts: &mut [u64],
) -> RunAndPruned
    ensures { Claims (restoring words.now).ledger calls.now clocks.now k lent.old lent.new
        reports.old reports.new counts.old counts.new result }
{
    let restored = restore(words);
    run_and_prune_from(restored.ledger, calls, clocks, k, lent, reports, counts)
}

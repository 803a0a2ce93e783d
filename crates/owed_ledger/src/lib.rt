// The static library for hosts in C or Rust: the calls of `hosts` under names of their own. A slice comes as a pointer and a length.
#![tactic(auto)]

ghost use Rattle.std.specs.Prelude.{[], length};
ghost use Rattle.rules.specs.Calls.{making};
ghost use Rattle.hosts.specs.Hosts.{made_for_host, read_for_host, pruned_for_host, ledger_read, ledger_pruned, Gives, ComesAgain};

#[unsafe(no_mangle)]
pub extern "C" fn owed_ledger_make(local: u64, v: u64, c: u64, l: u64, out: &mut [u8]) -> u64
    ensures gives { Gives (made_for_host local v c l (length out.old)) out.old out.new [] [] result }
    ensures again { ComesAgain (made_for_host local v c l (length out.old)) (making local v c l).ledger result }
{
    hosts::make(local, v, c, l, out)
}

#[unsafe(no_mangle)]
pub extern "C" fn owed_ledger_read(snapshot: &[u8], out: &mut [u8]) -> u64
    ensures gives { Gives (read_for_host snapshot.now (length out.old)) out.old out.new [] [] result }
    ensures again { ComesAgain (read_for_host snapshot.now (length out.old)) (ledger_read snapshot.now) result }
{
    hosts::read(snapshot, out)
}

#[unsafe(no_mangle)]
pub extern "C" fn owed_ledger_prune(
    snapshot: &[u8],
    now: u64,
    out: &mut [u8],
    reports: &mut [u8],
) -> u64
    ensures gives { Gives (pruned_for_host snapshot.now now (length out.old) (length reports.old)) out.old out.new reports.old reports.new result }
    ensures again { ComesAgain (pruned_for_host snapshot.now now (length out.old) (length reports.old)) (ledger_pruned snapshot.now now) result }
{
    hosts::prune(snapshot, now, out, reports)
}

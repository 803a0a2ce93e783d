// The calls that bring several transactions at once: abandonment records and finalizations. Their loops change the ledger in place, one
// group or line after the other.
#![tactic(auto)]

pub mod abandonment;
pub mod finalization;

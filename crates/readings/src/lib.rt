// How a reading of a ledger says what it found, and the lookups. Each is lent the ledger, which none changes, and answers a number (yes is 1
// and no is 0) or is refused. Those that are lent a list too stand in `entry_lists` and `shard_lists`.
#![tactic(auto)]

pub mod lookups;
pub mod reply;

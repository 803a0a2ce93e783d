// Making a ledger, and the calls on one transaction or one shard. Each is lent the ledger and changes it in place; a refusal changes neither
// the ledger nor the lent list.
#![tactic(auto)]

pub mod admission;
pub mod certificate;
pub mod making;
pub mod release;
pub mod settlement;
pub mod terminal;

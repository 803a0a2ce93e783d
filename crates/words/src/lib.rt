// The three forms in which words come in: whether they are well formed, whether times and shards in them are allowed, and the
// entries that they give.
#![tactic(auto)]

pub mod admission;
pub mod bundle;
pub mod finalization;
pub mod layout;
pub mod record;
mod shards;
mod taken;

// The calls that go over all entries: closes and prune. Each judges in one pass, and changes nothing before its list is known to be long
// enough.
#![tactic(auto)]

pub mod closes;
pub mod prune;

// Snapshots: the ledger written as words, and words read as a ledger. A list of words that is read is asked for its form first, as a whole, and
// only then is a ledger made, its entries taken in one after the other as an admission's is.
#![tactic(auto)]

pub mod counts;
pub mod departures;
pub mod entries;
pub mod form;
pub mod history;
pub mod put;
pub mod restore;
pub mod write;

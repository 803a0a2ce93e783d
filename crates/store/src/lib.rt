// What the ledger is kept in: the roster of owed transactions, the issuer index, the departures on file and the counts. Each is a sorted array
// that knows nothing of entries.
#![tactic(auto)]

pub mod counts;
pub mod departures;
pub mod issuers;
pub mod leaving;
pub mod roster;

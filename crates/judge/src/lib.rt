// How a prune judges an entry, and which departures an entry still needs. What it asks of the departures is read off them once, into a
// small view. Which of them counts over a route is found in the three steps of the text.
#![tactic(auto)]

pub mod over;
pub mod routes;
pub mod verdicts;
pub mod views;

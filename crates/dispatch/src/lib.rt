// One way to make a call: by its kind, on its words, with a lent list. The claim is about the calls that are made here, and the program that
// runs scripts makes its calls here, so that what is compared with the Rust is what the claim speaks of.
#![tactic(auto)]

pub mod changing;
pub mod reading;

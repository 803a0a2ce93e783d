// What lists of numbers are read with: slices of words, and rising numbers in the front of one.
#![tactic(auto)]

pub mod front;
pub mod fronts;
pub mod slices;
pub mod sorted;

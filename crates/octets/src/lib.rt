// Byte slices as such, whatever they hold: parts copied and filled, numbers of two and four bytes, bytes that must be zero. Beside them the two widths, and
// the refusals with their numbers.
//
// Promised: a function that writes changes the part that it names and no other byte; one that reads answers what stands there. Each ends and never traps.
#![tactic(auto)]

pub mod answer;
pub mod number;
pub mod part;
pub mod width;
pub mod zero;

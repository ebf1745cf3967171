// The calls that a host makes, each a call of the crates below. The crate `api_c` has them under their C names, for the one archive.
//
// Promised: none has a `requires`, and the contract of each says, for every lent slice and all numbers, the number answered and every byte left.
#![tactic(auto)]

pub mod changing;
pub mod reports;
pub mod screen;
pub mod strip;

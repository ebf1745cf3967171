// The mirror of document 01, which follows restarts by document 02, (c): a new one made, and an arriving report taken in.
//
// Promised: the exported functions ask nothing of their caller. Each contract says, for every lent slice, the number answered and every byte left; and of
// the definitions that say so it is proved that a mirror shows the screen of the sitting and serial that it names (`specs/Demand3`).
#![tactic(auto)]

pub mod arrive;
pub mod layout;
pub mod mirror;
pub mod order;

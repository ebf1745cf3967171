// The calls of `api` under their C names: the static library, which a host links. Nothing is decided here.
//
// Promised: what `api` promises of each, clause by clause.
#![tactic(auto)]

pub mod changing;
pub mod reports;
pub mod screen;
pub mod strip;

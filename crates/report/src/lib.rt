// Reports of document 01, "Reports and mirror": a report of a record made, and an arriving slice tested.
//
// Promised: a report call asks nothing of its caller, and its contract says, for every lent slice, the number answered and every byte left; the test
// answers, on a slice of any length, exactly the documents' conditions.
#![tactic(auto)]

pub mod check;
pub mod front;
pub mod kind;
pub mod layout;
pub mod report;
pub mod row;

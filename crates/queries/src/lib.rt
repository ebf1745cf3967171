// The calls of document 01 that only look at a lent screen record: the reading calls, which answer a number, and the text calls, which hand out a text in a
// lent output. Each refuses first.
//
// Promised: no function here asks anything of its caller. Each contract says, for every lent slice, the number or the refusal answered and every
// byte left.
#![tactic(auto)]

pub mod reading;
pub mod text;

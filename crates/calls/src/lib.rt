// New screen and the changing calls on a lent screen record: each refuses first, in the documents' order, and then does what its rule says.
//
// Promised: no function here asks anything of its caller. Each contract says, for every lent slice, the number answered and every byte left.
//
// Unfolded in every proof here: `rule`, which has a line for each call, and what reads such a line.
#![tactic(auto, unfolding(octets::specs::Refusals::first_of, editor::specs::Call::rule, editor::specs::Call::lengths, editor::specs::Call::own, editor::specs::Call::answer, editor::specs::Call::cr_left, editor::specs::Call::cr_after, editor::specs::Call::limited_ok))]

pub mod change;
pub mod finish;
pub mod fresh;
pub mod lines;
pub mod modes;
pub mod motion;
pub mod print;
pub mod refusal;
pub mod tab;
pub mod typing;
pub mod words;

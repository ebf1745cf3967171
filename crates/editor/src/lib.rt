// The text screen of document 01: the rules of all calls (`specs/`), and the code of "Printing" and "Typing and line keys", with (a) and (g) of document 02. The
// code of motion, modes and texts is the crate `moves`.
//
// Promised: on any valid screen, the rows and the head afterwards are those of the call's rule (`specs/Call`), which is again a valid screen
// (`proofs/KeptCall`). The bit of document 02, (l), is no part of a rule: `print` tells what a print leaves of it, and the crate `calls` writes it.
//
// A function here that does a call's work reads a valid screen, writes rows of a record that still shows it, and hands the new head back: it leaves the
// front to its caller.
#![tactic(auto)]

pub mod lines;
pub mod pen;
pub mod print;
pub mod tab;
pub mod typing;
pub mod waiting;

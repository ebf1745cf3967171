// Document 01, "Motion, modes" and the texts: the code of the calls that move the cursor, set a mode, blank the screen or show a text. Their rules stand
// with all others in `editor`.
//
// Promised: on any valid screen, the rows and the head afterwards are those of the call's rule (`editor/specs/Call`); the snapshot is that of
// `editor/specs/Text`.
//
// A function here that does a call's work reads a valid screen, and hands the new head back: it leaves the front to its caller.
#![tactic(auto)]

pub mod modes;
pub mod motion;
pub mod text;
pub mod words;

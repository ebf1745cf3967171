// The screen record of document 01, "The cell grid": its head, rows, cells and flags read and written, its layout tested, its rows
// compared, a new one made; and the refusals that all calls on a record share.
//
// Promised: the layout test answers, on a slice of any length, exactly the documents' conditions; a function that writes changes the field, row, cell
// or bit that it names and no other byte; one that reads answers what stands there. Each ends and never traps.
//
// Only this crate speaks of a record's bytes: each contract of a public function is about `head_of`, `row_of`, `rows_of` and `state_bytes`.
#![tactic(auto)]

pub mod fresh;
pub mod head;
pub mod layout;
mod pad;
pub mod pair;
pub mod refusal;
pub mod row;
pub mod screen;
pub mod touched;
pub mod valid;

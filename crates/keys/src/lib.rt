// The key strip of document 01, "Texts and key strip": the soft-key macros of a key table, shown in 40 or 80 columns.
//
// Promised: for every lent table and output and all numbers, the number answered and every byte left are those of `stripping` (`specs/Keys`).
#![tactic(auto)]

pub mod call;
pub mod strip;
pub mod table;

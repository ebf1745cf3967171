// The small values of a screen, apart from any record: attribute, cursor and its moves, masks of rows.
//
// Promised: an attribute's nibbles are those of its byte; a move of the cursor is document 01's, by value and through a lent cursor; a row's bit in a
// mask is that bit and no other.
#![tactic(auto)]

pub mod attr;
pub mod cursor;
pub mod lent;
pub mod mask;

// The logical lines of document 01: a line's span of rows, its reading and its editing content, and splice, which writes a line anew.
//
// Promised: on any valid screen, span, reading and editing content are those of `specs/Line`, and splice leaves the rows and the cursor of
// `specs/Splice`, whatever rows it has to drop.
//
// A function that reads gets a screen. One that writes reads a screen, writes rows of another record that holds the same, and hands the new head back.
#![tactic(auto)]

mod chars;
pub mod content;
pub mod logical;
mod plan;
pub mod reading;
pub mod span;
pub mod splice;
pub mod text;

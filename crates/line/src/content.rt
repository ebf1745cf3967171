// The editing content: the characters of the line under the cursor as it is edited, and the cursor's index in them.
ghost use Rattle.std.specs.Prelude.{◌≡◌, ◌≤◌};
ghost use Rattle.line.specs.Line.{content, index};
ghost use Rattle.line.specs.Text.{Holds, column_on};

use crate::chars::joined_rows;
use crate::logical::Line;
use crate::text::{MAX_LOGICAL, Text};
use grid::row::Row;
use values::cursor::Cursor;

// The cursor's column where it is on the line's last row, else 0.
#[tactic(auto, unfolding(crate::specs::Text::column_on))]
fn column_on(row: usize, end: usize, col: usize) -> usize
    ensures { (result ≡ column_on row end col) × (result ≤ col) }
{
    if row == end { col } else { 0 }
}

// The characters and the index of a line.
#[tactic(auto, using(crate::proofs::CharsLaws::rows_more, crate::proofs::CharsLaws::rows_fit, crate::proofs::CharsLaws::chars_fit))]
pub fn content_and_cursor(line: &Line) -> Text
    ensures { Holds result (content line.now) (index line.now) }
{
    let (s, span) = (line.screen, line.span);
    let w = s.head.width;
    let Cursor { row, col } = s.head.cursor;
    let last = Row::of(s.rec, span.end)
        .text_length(w)
        .max(column_on(row, span.end, col));
    let len = MAX_LOGICAL.min((span.end - span.start) * w + last);
    let index = MAX_LOGICAL.min((row - span.start) * w + col);
    // Behind the characters stand spaces: so they are padded up to the index.
    Text {
        bytes: joined_rows(s, span, len),
        len: len.max(index),
        index,
    }
}

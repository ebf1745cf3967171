// Reading: the text of a line, and how it is handed out.
ghost use Rattle.std.specs.Prelude.{◌≤◌, length, take};
ghost use Rattle.octets.specs.Answer.{wrote, Writes};
ghost use Rattle.line.specs.Line.{MAX-LOGICAL, reading};
ghost use Rattle.line.specs.Text.{Reads};

use crate::chars::joined_rows;
use crate::span::Span;
use crate::text::MAX_LOGICAL;
pub use crate::text::Reading;
use grid::row;
use grid::row::Row;
use grid::screen::Screen;
use octets::part;

// The reading of a span's rows.
#[tactic(auto, using(crate::proofs::CharsLaws::rows_more, crate::proofs::CharsLaws::rows_fit, crate::proofs::CharsLaws::chars_fit))]
pub fn read_stripped(s: &Screen, span: Span) -> Reading
    ensures { Reads result (reading s.now span.start span.end) }
{
    let w = s.head.width;
    let last = Row::of(s.rec, span.end).text_length(w);
    let len = MAX_LOGICAL.min((span.end - span.start) * w + last);
    let bytes = joined_rows(s, span, len);
    Reading {
        bytes,
        len: row::stripped_length(&bytes[..len]),
    }
}

// Writes a reading to the front of an output, and answers its length.
// Kept so: a cast, since no `From` leads from usize to u32, and `try_from` would have a case that never comes.
#[tactic(auto, using(crate::proofs::ReadingLaws::reading_put))]
pub fn put_reading(out: &mut [u8], t: Reading) -> u32
    requires { MAX-LOGICAL ≤ length out.old }
    ensures { Writes (wrote (take t.len t.bytes) out.old) result out.new }
{
    part::copy_in(out, 0, &t.bytes[..t.len]);
    t.len as u32
}

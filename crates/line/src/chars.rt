// The characters of rows one after the other: what `read_stripped` and `content_and_cursor` have in common.
ghost use Rattle.std.specs.Prelude.{◌≡◌, ◌+◌, ◌-◌, ◌*◌, ◌≤◌, replicate};
ghost use Rattle.octets.specs.Part.{write};
ghost use Rattle.line.specs.Line.{MAX-LOGICAL};
ghost use Rattle.line.specs.Text.{line_from};

use crate::span::Span;
use crate::text::MAX_LOGICAL;
use grid::row::Row;
use grid::screen::Screen;
use octets::part;

// The first len characters of a span's rows over spaces.
// Kept so: by numbers of rows, since the last part may be shorter, and none.
#[tactic(auto, using(crate::proofs::CharsLaws::chars_start))]
pub fn joined_rows(s: &Screen, span: Span, len: usize) -> [u8; MAX_LOGICAL]
    requires { (len ≤ MAX-LOGICAL) × (len ≤ (span.end + 1 - span.start) * s.now.head.width) }
    ensures { result ≡ write (replicate MAX-LOGICAL 32) 0 (line_from s.now span.start len) }
{
    let (rec, w) = (s.rec, s.head.width);
    let mut bytes = [b' '; MAX_LOGICAL];
    for r in span.start..span.end + 1 {
        let i = len.min((r - span.start) * w);
        let n = w.min(len - i);
        part::copy_in(&mut bytes, i, &Row::of(rec, r).chars()[..n]);
    }
    bytes
}

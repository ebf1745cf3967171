// Where a logical line begins and ends.
ghost use Rattle.std.specs.Prelude.{◌≡◌, ◌-◌, ◌≤◌, ◌<◌};
ghost use Rattle.grid.specs.Screen.{editable};
ghost use Rattle.grid.specs.Record.{rows_of};
ghost use Rattle.line.specs.Line.{span_start, span_end};
ghost use Rattle.line.specs.Given.{SpanOf};

use grid::head;
use grid::layout::Record;
use grid::row::Row;
use grid::screen::Screen;

// The first and the last row of a line.
#[derive(Clone, Copy)]
pub struct Span {
    pub start: usize,
    pub end: usize,
    pub ghost ordered: { start ≤ end },
    pub ghost inside: { end < 25 },
}

// A line begins behind the last row before its own that is not flagged.
fn span_start(rec: &Record, row: usize) -> usize
    requires { row < 25 }
    ensures { (result ≡ span_start (rows_of rec.now) row) × (result ≤ row) }
{
    (0..row)
        .rev()
        .find(|r| Row::of(rec, *r).flag() != 1)
        .map_or(0, |r| r + 1)
}

// It ends at the first row from its own on that is not flagged, or with the last editable one.
fn span_end(rec: &Record, row: usize, e: usize) -> usize
    requires { (row < e) × (e ≤ 25) }
    ensures { (result ≡ span_end (rows_of rec.now) (e - 1 - row) row) × (row ≤ result) × (result < e) }
{
    (row..e - 1)
        .find(|r| Row::of(rec, *r).flag() != 1)
        .unwrap_or(e - 1)
}

// The span of an editable row.
pub fn span_at(s: &Screen, row: usize) -> Span
    requires { row < editable s.now.head.keys }
    ensures { SpanOf s.now row result.start result.end }
{
    let e = head::editable_rows(s.head.keys);
    let rec = s.rec;
    Span {
        start: span_start(rec, row),
        end: span_end(rec, row, e),
    }
}

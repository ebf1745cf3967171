// The keys that take out, join, submit or end a logical line.
ghost use Rattle.std.specs.Prelude.{◌≡◌, ◌+◌, ◌<◌};
ghost use Rattle.grid.specs.Screen.{editable};
ghost use Rattle.grid.specs.Record.{rows_of, Leaves};
ghost use Rattle.line.specs.Line.{line_text};
ghost use Rattle.line.specs.Text.{Reads};
ghost use Rattle.editor.specs.Lines.{take_logical_line, too_long, on_blank_end};
ghost use Rattle.editor.specs.Call.{CtrlEnter, apply, BreakLine, EscapeLine};

use crate::pen::Pen;
use crate::print::{next_row, row_is_blank};
use grid::head::Head;
use grid::layout::Record;
use grid::row::Row;
use grid::screen::Screen;
use grid::{head, row};
use line::logical::Line;
use line::reading::{Reading, read_stripped};
use line::span::{Span, span_at};
use line::splice::remove_line;
use line::text::MAX_LOGICAL;
use values::cursor::Cursor;

#[tactic(auto, unfolding(crate::specs::Call::apply, crate::specs::Call::rule, crate::specs::Lines::escape_line))]
pub fn escape_line(rec: &mut Record, old: &Screen) -> Head
    requires { rows_of rec.old ≡ old.now.rows }
    ensures { Leaves (apply EscapeLine old.now) rec.old rec.new result }
{
    remove_line(rec, &Line::under_cursor(old))
}

// Is the cursor's row its span's last, and would the line be too long with the next one?
fn too_long(line: &Line) -> bool
    requires { line.now.head.cursor.row + 1 < editable line.now.head.keys }
    ensures { result ≡ too_long line.now }
{
    let (s, span) = (line.screen, line.span);
    let r = s.head.cursor.row;
    if r != span.end {
        return false;
    }
    let next = Span {
        start: r + 1,
        end: span_at(s, r + 1).end,
    };
    let t = read_stripped(s, next);
    (r - span.start + 1) * s.head.width + t.len > MAX_LOGICAL
}

pub fn ctrl_enter(rec: &mut Record, old: &Screen) -> Head
    requires { rows_of rec.old ≡ old.now.rows }
    ensures { Leaves (apply CtrlEnter old.now) rec.old rec.new result }
{
    let h = old.head;
    let r = h.cursor.row;
    if r + 1 >= head::editable_rows(h.keys) || too_long(&Line::under_cursor(old)) {
        return h;
    }
    row::set_flag(rec, r, 1);
    h.with_cursor(Cursor::new(r + 1, 0))
}

// Does the cursor stand in column 0 of an all-space row, the last of a longer span?
fn on_blank_end(line: &Line) -> bool
    ensures { result ≡ on_blank_end line.now }
{
    let (s, span) = (line.screen, line.span);
    let end = span.end;
    span.start < end
        && row_is_blank(&Row::of(s.rec, end), s.head.width)
        && s.head.cursor == Cursor::new(end, 0)
}

// What `take_logical_line` leaves; its answer is `line_text`.
pub fn take_logical_line(rec: &mut Record, old: &Screen) -> Head
    requires { rows_of rec.old ≡ old.now.rows }
    ensures { Leaves (take_logical_line old.now) rec.old rec.new result }
{
    let line = Line::under_cursor(old);
    let end = line.span.end;
    if on_blank_end(&line) {
        row::set_flag(rec, end - 1, 0);
        return old.head;
    }
    next_row(rec, Pen::of(old).moved(end, 0)).pen.head
}

// The reading of the line under the cursor.
#[tactic(auto, using(crate::proofs::LinesLaws::line_read))]
pub fn line_text(s: &Screen) -> Reading
    ensures { Reads result (line_text s.now) }
{
    let line = Line::under_cursor(s);
    read_stripped(s, line.span)
}

#[tactic(auto, unfolding(crate::specs::Call::apply, crate::specs::Call::rule, crate::specs::Lines::break_line))]
pub fn break_line(rec: &mut Record, old: &Screen) -> Head
    requires { rows_of rec.old ≡ old.now.rows }
    ensures { Leaves (apply BreakLine old.now) rec.old rec.new result }
{
    next_row(rec, Pen::of(old)).pen.head
}

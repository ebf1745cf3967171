// A plan of source rows: which row of the old screen, of a line, or blank, each row of the new screen is. It stands for the Rust's lists of rows
// before and after a line (`to_vec`, `pop`, `remove(0)`): the rows are written one by one from the old screen.
ghost use Rattle.std.specs.Prelude.{◌≡◌, ◌≤◌, ◌<◌, set};
ghost use Rattle.grid.specs.Screen.{blank_row, row_at};
ghost use Rattle.grid.specs.Record.{row_of, rows_of, Becomes};
ghost use Rattle.line.specs.Splice.{line_rows};
ghost use Rattle.line.specs.Plan.{plan_of, Laid, ChangedTo, line_flag, planned_row, planned_rows};

use crate::span::Span;
use grid::layout::Record;
use grid::row;
use grid::row::{Blank, Row};
use grid::screen::Screen;

// Row r of the new screen is: before top, the old row r + over; then one of the line's rows; then the old rows from next on; then blank.
// Rows from `rows` on stay as they are.
// Kept so: that a plan keeps to the screen (`Laid`) is no ghost field, since `plan_of` of specs/ is a plan of any four numbers.
#[derive(Clone, Copy)]
pub struct Plan {
    pub top: usize,
    pub over: usize,
    pub lines: usize,
    pub next: usize,
    pub rows: usize,
}

// The plan for a line of k rows in the place of a span, of e editable rows. Above e rows, rows go from the bottom of those after: the plan ends
// at e. Where the rows before and the line alone are above e, `over` of those before go from the top.
#[tactic(auto, using(crate::proofs::PlanLaws::plan_made))]
pub fn plan_of(span: Span, k: usize, e: usize) -> Plan
    requires { (span.end < e) × (24 ≤ e) × (e ≤ 25) × (k ≤ 8) }
    ensures { result ≡ plan_of span.start span.end k e }
{
    let over = (span.start + k).saturating_sub(e);
    Plan {
        top: span.start - over,
        over,
        lines: k,
        next: span.end + 1,
        rows: e,
    }
}

// The flag of the line's row that stands at r, where its rows end before `below`.
// Kept so: a number, the record's byte (see `grid::row::Row`).
#[tactic(auto, unfolding(crate::specs::Plan::line_flag))]
fn line_flag(r: usize, below: usize) -> u8
    requires { r < below }
    ensures { result ≡ line_flag r below }
{
    u8::from(r + 1 != below)
}

// Makes the row r that of the old screen's row src. It is still as in old, so that with src = r nothing is to be written.
#[tactic(auto, using(crate::proofs::PlanLaws::row_kept, crate::proofs::PlanLaws::row_moved))]
fn move_row(rec: &mut Record, r: usize, old: &Screen, src: usize)
    requires { (row_of rec.old r ≡ row_at old.now.rows r) × (r < 25) × (src < 25) }
    ensures { Becomes rec.old rec.new (set (rows_of rec.old) r (row_at old.now.rows src)) }
{
    if src == r {
        return;
    }
    row::put_row(rec, r, &Row::of(old.rec, src));
}

// Writes the row r by the plan, from the old rows and a text. It is still as in old.
// Kept so: a part of the text by two numbers: a line's last row may have less than a row of characters, or none, where `chunks` ends.
#[tactic(auto, using(crate::proofs::PlanLaws::above_moved, crate::proofs::PlanLaws::below_moved, crate::proofs::PlanLaws::blank_put, crate::proofs::PlanLaws::line_put))]
fn write_row(rec: &mut Record, r: usize, old: &Screen, p: Plan, text: &[u8])
    requires { (row_of rec.old r ≡ row_at old.now.rows r) × (r < p.rows) × Laid p }
    ensures { Becomes rec.old rec.new (set (rows_of rec.old) r (planned_row old.now.rows (line_rows p.lines old.now.head.width old.now.head.attr text.now) (blank_row old.now.head.width old.now.head.attr) p r)) }
{
    let blank = Blank {
        width: old.head.width,
        attr: old.head.attr,
    };
    let top = p.top;
    if r < top {
        move_row(rec, r, old, r + p.over);
        return;
    }
    let below = top + p.lines;
    if r < below {
        let from = text.len().min((r - top) * blank.width);
        let n = blank.width.min(text.len() - from);
        row::line_row(rec, r, blank, line_flag(r, below), &text[from..from + n]);
        return;
    }
    let src = p.next + (r - below);
    if src < p.rows {
        move_row(rec, r, old, src);
        return;
    }
    row::blank_row(rec, r, blank);
}

// The row at which the writing ends: where the line has as many rows as before, those behind it stay.
#[tactic(auto, using(crate::proofs::PlanLaws::changed_line, crate::proofs::PlanLaws::changed_all))]
fn changed_to(p: Plan) -> usize
    requires { Laid p }
    ensures { ChangedTo p result }
{
    let below = p.top + p.lines;
    if p.next == below {
        return below;
    }
    p.rows
}

// Writes all rows by the plan.
#[tactic(auto, using(crate::proofs::PlanLaws::rows_start, crate::proofs::PlanLaws::row_still))]
pub fn write_rows(rec: &mut Record, old: &Screen, p: Plan, text: &[u8])
    requires { (rows_of rec.old ≡ old.now.rows) × Laid p }
    ensures { Becomes rec.old rec.new (planned_rows old.now.rows (line_rows p.lines old.now.head.width old.now.head.attr text.now) (blank_row old.now.head.width old.now.head.attr) p) }
{
    for r in 0..changed_to(p) {
        write_row(rec, r, old, p, text);
    }
}

// Splice: the line under the cursor becomes another text, or goes.
ghost use Rattle.std.specs.Prelude.{◌≡◌, ◌+◌, ◌/◌, ◌%◌, ◌≤◌};
ghost use Rattle.values.specs.Cursor.{at};
ghost use Rattle.grid.specs.Screen.{with_cursor};
ghost use Rattle.grid.specs.Record.{rows_of, Leaves};
ghost use Rattle.line.specs.Line.{MAX-LOGICAL, start_of, end_of};
ghost use Rattle.line.specs.Splice.{splice, without_rows};
ghost use Rattle.line.specs.Text.{text_of};
ghost use Rattle.line.specs.Plan.{Count, Laid};

use crate::logical::Line;
use crate::plan;
use crate::plan::Plan;
use crate::text::Text;
use grid::head;
use grid::head::Head;
use grid::layout::Record;
use grid::screen::Screen;
use values::cursor::Cursor;

// The rows that n characters take with the cursor at i.
#[tactic(auto, using(crate::proofs::SpliceCounts::count_none, crate::proofs::SpliceCounts::count_inside, crate::proofs::SpliceCounts::count_part, crate::proofs::SpliceCounts::count_full, crate::proofs::SpliceCounts::count_fits))]
fn rows_for(w: usize, n: usize, i: usize) -> usize
    requires { (40 ≤ w) × (w ≤ 80) × (n ≤ MAX-LOGICAL) }
    ensures { Count w n i result }
{
    if n == 0 {
        return 1;
    }
    let k = (n + w - 1) / w;
    if i == n && n % w == 0 { k + 1 } else { k }
}

// The screen's head with the cursor at index i of a line that the plan has laid.
#[tactic(auto, using(crate::proofs::SpliceLaws::cursor_fits, crate::proofs::SpliceLaws::head_placed))]
fn head_in(s: &Screen, p: Plan, i: usize) -> Head
    requires { Laid p × (i ≤ MAX-LOGICAL) }
    ensures { result ≡ with_cursor s.now.head (at (p.top + i / s.now.head.width) (i % s.now.head.width)) }
{
    let h = s.head;
    h.with_cursor(Cursor::new(p.top + i / h.width, i % h.width))
}

// Writes a text in the place of the line, with the cursor at the text's index, and hands the new head back. (A text has at most 255 characters, and its index is
// among them or behind the last: the Rust cuts both here.)
#[tactic(auto, using(crate::proofs::SpliceLaws::same_rows, crate::proofs::SpliceLaws::line_laid))]
pub fn splice_logical(rec: &mut Record, line: &Line, text: Text) -> Head
    requires { rows_of rec.old ≡ line.now.rows }
    ensures { Leaves (splice line.now (text_of text) text.index) rec.old rec.new result }
{
    let s = line.screen;
    let rows = rows_for(s.head.width, text.len, text.index);
    let p = plan::plan_of(line.span, rows, head::editable_rows(s.head.keys));
    plan::write_rows(rec, s, p, &text.bytes[..text.len]);
    head_in(s, p, text.index)
}

// The line's rows go, later ones move up, blank rows fill below; the cursor goes to the first column of its first row.
#[tactic(auto, using(crate::proofs::SpliceLaws::same_rows, crate::proofs::SpliceLaws::line_laid))]
pub fn remove_line(rec: &mut Record, line: &Line) -> Head
    requires { rows_of rec.old ≡ line.now.rows }
    ensures { Leaves (without_rows line.now (start_of line.now line.now.head.cursor.row) (end_of line.now line.now.head.cursor.row)) rec.old rec.new result }
{
    let s = line.screen;
    let p = plan::plan_of(line.span, 0, head::editable_rows(s.head.keys));
    plan::write_rows(rec, s, p, &[]);
    s.head.with_cursor(Cursor::new(line.span.start, 0))
}

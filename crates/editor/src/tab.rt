// Tab: spaces typed while insert is on, else a move.
ghost use Rattle.std.specs.Prelude.{◌<◌, ◌≡◌};
ghost use Rattle.grid.specs.Record.{rows_of, Leaves};
ghost use Rattle.editor.specs.Tab.{type_spaces, next_stop, tabbed};
ghost use Rattle.editor.specs.Call.{Tab, apply};

use crate::typing::type_limited;
use grid::head;
use grid::head::Head;
use grid::layout::Record;
use grid::screen::Screen;
use line::text::MAX_LOGICAL;
use values::cursor::Cursor;

// n spaces, until one leaves the cursor still. Each is typed on the rows that the one before left, with the head that it handed back.
fn type_spaces(rec: &mut Record, old: &Screen, n: usize) -> Head
    requires { rows_of rec.old ≡ old.now.rows }
    ensures { Leaves (type_spaces n old.now) rec.old rec.new result }
{
    let mut h = old.head;
    for _ in 0..n {
        let copy = *rec;
        let s = Screen {
            rec: &copy,
            head: h,
        };
        let g = type_limited(rec, &s, b' ', MAX_LOGICAL);
        if h.cursor == g.cursor {
            return g;
        }
        h = g;
    }
    h
}

#[tactic(auto, using(crate::proofs::TabLaws::after_stop, crate::proofs::TabLaws::next_stop_is))]
fn next_stop(c: usize) -> usize
    requires { c < 80 }
    ensures { (result ≡ next_stop c) × (c < result) }
{
    (c / 8 + 1) * 8
}

// Where tab goes with insert off.
#[tactic(auto, using(grid::proofs::ScreenLaws::head_seen), unfolding(crate::specs::Tab::tabbed))]
fn tab_cursor(s: &Screen) -> Cursor
    ensures { result ≡ tabbed s.now.head }
{
    let h = s.head;
    let r = h.cursor.row;
    let t = next_stop(h.cursor.col);
    if t < h.width {
        return Cursor::new(r, t);
    }
    if r + 1 < head::editable_rows(h.keys) {
        return Cursor::new(r + 1, 0);
    }
    h.cursor
}

pub fn tab(rec: &mut Record, old: &Screen) -> Head
    requires { rows_of rec.old ≡ old.now.rows }
    ensures { Leaves (apply Tab old.now) rec.old rec.new result }
{
    let h = old.head;
    let c = h.cursor.col;
    if h.insert == 1 {
        return type_spaces(rec, old, next_stop(c) - c);
    }
    h.with_cursor(tab_cursor(old))
}

// The modes, and the calls that blank the screen.
ghost use Rattle.std.specs.Prelude.{◌≡◌, ◌≤◌};
ghost use Rattle.grid.specs.Record.{rows_of, Leaves, Moves};
ghost use Rattle.editor.specs.Call.{Clear, SetWidth, SetInsert, SetAttr, SetKeysOn, apply};

use grid::head::Head;
use grid::layout::{Record, SCREEN_ROWS};
use grid::row::Blank;
use grid::screen::Screen;
use grid::{head, row};
use values::attr::Attr;
use values::cursor::Cursor;

// Kept so: a mode is a number, here and in `set_keys_on`, as in the rule, which takes any: a bool would ask more of who calls.
#[tactic(auto, unfolding(editor::specs::Call::apply, editor::specs::Call::rule, editor::specs::Modes::set_insert))]
pub fn set_insert(s: &Screen, on: u8) -> Head
    ensures { Moves (apply (SetInsert on) s.now) s.now result }
{
    s.head.with_insert(on)
}

#[tactic(auto, unfolding(editor::specs::Call::apply, editor::specs::Call::rule, editor::specs::Modes::set_attr))]
pub fn set_attr(s: &Screen, attr: u8) -> Head
    ensures { Moves (apply (SetAttr attr) s.now) s.now result }
{
    s.head.with_attr(Attr::from(attr))
}

// The cursor is clamped to the rows that are editable then.
#[tactic(auto, using(grid::proofs::Validity::editable_from), unfolding(editor::specs::Call::apply, editor::specs::Call::rule, editor::specs::Modes::set_keys_on))]
pub fn set_keys_on(s: &Screen, on: u8) -> Head
    ensures { Moves (apply (SetKeysOn on) s.now) s.now result }
{
    let h = s.head;
    let cursor = h.cursor.clamp(h.width, head::editable_rows(on));
    h.with_cursor(cursor).with_keys(on)
}

#[tactic(auto, using(grid::proofs::Validity::editable_to), unfolding(editor::specs::Call::apply, editor::specs::Call::rule, editor::specs::Modes::clear, grid::specs::Screen::move_to, grid::specs::Screen::with_rows))]
pub fn clear(rec: &mut Record, old: &Screen) -> Head
    requires { rows_of rec.old ≡ old.now.rows }
    ensures { Leaves (apply Clear old.now) rec.old rec.new result }
{
    let h = old.head;
    let blank = Blank {
        width: h.width,
        attr: h.attr,
    };
    row::blank_rows(rec, head::editable_rows(h.keys), blank);
    h.with_cursor(Cursor::HOME)
}

// All 25 rows are blank, whatever the keys say, and insert ends.
pub fn set_width(rec: &mut Record, old: &Screen, width: u32) -> Head
    requires { (rows_of rec.old ≡ old.now.rows) × (width ≤ 80) }
    ensures { Leaves (apply (SetWidth width) old.now) rec.old rec.new result }
{
    let h = old.head;
    // Kept so: a cast, since no `From` leads from u32 to usize, and `try_from` would have a case that never comes.
    let w = width as usize;
    let blank = Blank {
        width: w,
        attr: h.attr,
    };
    row::blank_rows(rec, SCREEN_ROWS, blank);
    h.with_width(w).with_cursor(Cursor::HOME).with_insert(0)
}

// The arrows, home, `set_cursor` and the end of a line: each looks at the head, has the cursor moved, and hands the new head back. No row is written.
#![tactic(auto, unfolding(editor::specs::Call::apply, editor::specs::Call::rule))]

ghost use Rattle.grid.specs.declared.head.Head.{Head};
ghost use Rattle.grid.specs.Screen.{move_to};
ghost use Rattle.grid.specs.Record.{Moves};
ghost use Rattle.grid.specs.Facts.{HeadFacts};
ghost use Rattle.editor.specs.Call.{MoveLeft, MoveRight, MoveUp, MoveDown, Home, SetCursor, apply, EndOfLine};

use grid::head;
use grid::head::Head;
use grid::screen::Screen;
use line::logical::Line;
use line::reading::read_stripped;
use values::cursor::Cursor;

// The head with the cursor where `to` takes it.
#[tactic(auto, unfolding(grid::specs::Screen::move_to))]
fn moved<F: FnOnce(Head) -> Cursor>(s: &Screen, to: F) -> Head
    requires callable { (h : Head) → HeadFacts h → F.pre to h }
    ensures answer { F.post to s.now.head result.cursor }
    ensures rest { Moves (move_to s.now result.cursor) s.now result }
{
    let h = s.head;
    h.with_cursor(to(h))
}

pub fn move_left(s: &Screen) -> Head
    ensures { Moves (apply MoveLeft s.now) s.now result }
{
    moved(s, |h| h.cursor.left(h.width))
}

pub fn move_right(s: &Screen) -> Head
    ensures { Moves (apply MoveRight s.now) s.now result }
{
    moved(s, |h| h.cursor.right(h.width, head::editable_rows(h.keys)))
}

pub fn move_up(s: &Screen) -> Head
    ensures { Moves (apply MoveUp s.now) s.now result }
{
    moved(s, |h| h.cursor.up())
}

pub fn move_down(s: &Screen) -> Head
    ensures { Moves (apply MoveDown s.now) s.now result }
{
    moved(s, |h| h.cursor.down(head::editable_rows(h.keys)))
}

pub fn home(s: &Screen) -> Head
    ensures { Moves (apply Home s.now) s.now result }
{
    moved(s, |h| h.cursor.home())
}

pub fn set_cursor(s: &Screen, row: u32, col: u32) -> Head
    ensures { Moves (apply (SetCursor row col) s.now) s.now result }
{
    // Kept so: casts, since no `From` leads from u32 to usize, and `try_from` would have a case that never comes.
    let given = Cursor::new(row as usize, col as usize);
    moved(s, |h| given.clamp(h.width, head::editable_rows(h.keys)))
}

#[tactic(auto, using(crate::proofs::MotionLaws::end_row_fits), unfolding(editor::specs::Call::apply, editor::specs::Call::rule, editor::specs::Motion::end_of_line, grid::specs::Screen::move_to, line::specs::Line::start_of, line::specs::Line::line_text))]
pub fn end_of_line(s: &Screen) -> Head
    ensures { Moves (apply EndOfLine s.now) s.now result }
{
    let h = s.head;
    let span = Line::under_cursor(s).span;
    let t = read_stripped(s, span);
    let r = span.start + t.len / h.width;
    let e = head::editable_rows(h.keys);
    if r < e {
        return h.with_cursor(Cursor::new(r, t.len % h.width));
    }
    h.with_cursor(Cursor::new(e - 1, h.width - 1))
}

// The head while a call prints: it goes from hand to hand, and the rows change in the record, whose own head stays as it was.
ghost use Rattle.std.specs.Prelude.{◌≡◌, ◌≤◌, ◌<◌};
ghost use Rattle.values.specs.Cursor.{at};
ghost use Rattle.grid.specs.Screen.{editable, with_cursor};

use grid::head::Head;
use grid::screen::Screen;
use values::cursor::Cursor;

// As in a valid screen, the cursor is on an editable row and inside the width. (`rows` holds of any head: with it the check sees that a row is one of 25.)
// Kept so: record and pen go beside each other, with `cr` where bytes are printed: a struct that holds the record as a `&mut` would lend it anew at each step, and
// ghost fields beside a `&mut` are hardly covered yet (docs/NOT_COVERED.md of rt).
#[derive(Clone, Copy)]
pub struct Pen {
    pub head: Head,
    pub ghost width: { head.width ≤ 80 },
    pub ghost rows: { editable head.keys ≤ 25 },
    pub ghost row: { head.cursor.row < editable head.keys },
    pub ghost col: { head.cursor.col < head.width },
}

impl Pen {
    pub fn of(screen: &Screen) -> Pen
        ensures { result.head ≡ screen.now.head }
    {
        Pen { head: screen.head }
    }

    // The same with the cursor elsewhere.
    pub fn moved(self, row: usize, col: usize) -> Pen
        requires { (row < editable self.head.keys) × (col < self.head.width) }
        ensures { result.head ≡ with_cursor self.head (at row col) }
    {
        Pen {
            head: self.head.with_cursor(Cursor::new(row, col)),
        }
    }
}

// The four arrows on a cursor that is lent by `&mut`, in w columns and e rows.
// Kept so: they are public names of the Rust. All four take w and e, needed or not, so that a caller may choose among them.
ghost use Rattle.std.specs.Prelude.{◌≡◌, ◌<◌};
ghost use Rattle.values.specs.Cursor.{left, right, up, down};

use crate::cursor::Cursor;

pub fn move_left(c: &mut Cursor, w: usize, e: usize)
    requires { 0 < w }
    ensures { c.new ≡ left w c.old }
{
    *c = c.left(w);
}

pub fn move_right(c: &mut Cursor, w: usize, e: usize)
    requires { (c.old.col < w) × (c.old.row < e) }
    ensures { c.new ≡ right w e c.old }
{
    *c = c.right(w, e);
}

pub fn move_up(c: &mut Cursor, w: usize, e: usize)
    ensures { c.new ≡ up c.old }
{
    *c = c.up();
}

pub fn move_down(c: &mut Cursor, w: usize, e: usize)
    requires { c.old.row < e }
    ensures { c.new ≡ down e c.old }
{
    *c = c.down(e);
}

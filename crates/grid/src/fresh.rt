// A new screen's record.
ghost use Rattle.std.specs.Prelude.{◌≡◌};
ghost use Rattle.grid.specs.Screen.{new_head, new_state};
ghost use Rattle.grid.specs.Record.{state_bytes};

use crate::layout::{Record, SCREEN_ROWS};
use crate::pair::Pair;
use crate::row::Blank;
use crate::{head, row};
use values::attr::Attr;
use values::cursor::Cursor;

// 40 gives 40, all else 80.
#[tactic(auto, unfolding(crate::specs::Screen::new_head))]
fn new_head(width: u32) -> head::Head
    ensures { result ≡ new_head width }
{
    head::Head {
        width: if width == 40 { 40 } else { 80 },
        cursor: Cursor::HOME,
        insert: 0,
        cr: 0,
        keys: 1,
        attr: Attr::NORMAL,
    }
}

// Writes a new screen's record over any bytes.
pub fn new_screen(rec: &mut Record, width: u32, sitting: u32)
    ensures { rec.new ≡ state_bytes (new_state width sitting) }
{
    let h = new_head(width);
    let blank = Blank {
        width: h.width,
        attr: Attr::NORMAL,
    };
    row::blank_rows(rec, SCREEN_ROWS, blank);
    let stamp = head::Stamp {
        pair: Pair { sitting, serial: 0 },
        touched: 0,
    };
    head::write_front(rec, h, stamp);
}

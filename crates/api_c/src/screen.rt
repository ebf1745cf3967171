// New screen, and the reading and text calls on a lent screen record.
ghost use Rattle.std.specs.Prelude.{◌≡◌};
ghost use Rattle.editor.specs.Outcome.{creating, asking, texting, AskWidth, AskCursor, AskAttr, AskEditableRows, AskCell, AskContinues, LogicalText, Snapshot};
ghost use Rattle.octets.specs.Answer.{Writes};

use api::screen;

#[unsafe(no_mangle)]
pub extern "C" fn screen_new(rec: &mut [u8], width: u32, sitting: u32) -> u32
    ensures { Writes (creating width sitting rec.old) result rec.new }
{
    screen::screen_new(rec, width, sitting)
}

#[unsafe(no_mangle)]
pub extern "C" fn screen_width(rec: &[u8]) -> u32
    ensures { result ≡ asking AskWidth rec.now }
{
    screen::screen_width(rec)
}

#[unsafe(no_mangle)]
pub extern "C" fn screen_cursor(rec: &[u8]) -> u32
    ensures { result ≡ asking AskCursor rec.now }
{
    screen::screen_cursor(rec)
}

#[unsafe(no_mangle)]
pub extern "C" fn screen_attr(rec: &[u8]) -> u32
    ensures { result ≡ asking AskAttr rec.now }
{
    screen::screen_attr(rec)
}

#[unsafe(no_mangle)]
pub extern "C" fn screen_editable_rows(rec: &[u8]) -> u32
    ensures { result ≡ asking AskEditableRows rec.now }
{
    screen::screen_editable_rows(rec)
}

#[unsafe(no_mangle)]
pub extern "C" fn screen_cell(rec: &[u8], row: u32, col: u32) -> u32
    ensures { result ≡ asking (AskCell row col) rec.now }
{
    screen::screen_cell(rec, row, col)
}

#[unsafe(no_mangle)]
pub extern "C" fn screen_continues(rec: &[u8], row: u32) -> u32
    ensures { result ≡ asking (AskContinues row) rec.now }
{
    screen::screen_continues(rec, row)
}

#[unsafe(no_mangle)]
pub extern "C" fn screen_logical_text(rec: &[u8], out: &mut [u8]) -> u32
    ensures { Writes (texting LogicalText rec.now out.old) result out.new }
{
    screen::screen_logical_text(rec, out)
}

#[unsafe(no_mangle)]
pub extern "C" fn screen_snapshot(rec: &[u8], out: &mut [u8]) -> u32
    ensures { Writes (texting Snapshot rec.now out.old) result out.new }
{
    screen::screen_snapshot(rec, out)
}

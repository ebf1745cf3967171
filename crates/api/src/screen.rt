// New screen, and the reading and text calls on a lent screen record.
ghost use Rattle.std.specs.Prelude.{◌≡◌};
ghost use Rattle.editor.specs.Outcome.{creating, asking, texting, AskWidth, AskCursor, AskAttr, AskEditableRows, AskCell, AskContinues, LogicalText, Snapshot};
ghost use Rattle.octets.specs.Answer.{Writes};

use calls::fresh;
use octets::answer::{done, number};
use queries::{reading, text};

pub fn screen_new(rec: &mut [u8], width: u32, sitting: u32) -> u32
    ensures { Writes (creating width sitting rec.old) result rec.new }
{
    done(fresh::new_screen(rec, width, sitting))
}

pub fn screen_width(rec: &[u8]) -> u32
    ensures { result ≡ asking AskWidth rec.now }
{
    number(reading::width(rec))
}

pub fn screen_cursor(rec: &[u8]) -> u32
    ensures { result ≡ asking AskCursor rec.now }
{
    number(reading::cursor(rec))
}

pub fn screen_attr(rec: &[u8]) -> u32
    ensures { result ≡ asking AskAttr rec.now }
{
    number(reading::attr(rec))
}

pub fn screen_editable_rows(rec: &[u8]) -> u32
    ensures { result ≡ asking AskEditableRows rec.now }
{
    number(reading::editable_rows(rec))
}

pub fn screen_cell(rec: &[u8], row: u32, col: u32) -> u32
    ensures { result ≡ asking (AskCell row col) rec.now }
{
    number(reading::cell(rec, row, col))
}

pub fn screen_continues(rec: &[u8], row: u32) -> u32
    ensures { result ≡ asking (AskContinues row) rec.now }
{
    number(reading::continues(rec, row))
}

pub fn screen_logical_text(rec: &[u8], out: &mut [u8]) -> u32
    ensures { Writes (texting LogicalText rec.now out.old) result out.new }
{
    number(text::logical_text(rec, out))
}

pub fn screen_snapshot(rec: &[u8], out: &mut [u8]) -> u32
    ensures { Writes (texting Snapshot rec.now out.old) result out.new }
{
    number(text::snapshot(rec, out))
}

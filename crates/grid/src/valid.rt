// The test of a record's layout.
ghost use Rattle.std.specs.Prelude.{◌≡◌, ◌≤◌, ◌<◌};
ghost use Rattle.grid.specs.Screen.{printable, valid_attr, valid_head, valid_row};
ghost use Rattle.octets.specs.Test.{every};
ghost use Rattle.grid.specs.Record.{row_of, rows_of, frontb, validb};

use crate::head;
use crate::layout::{MASKS, Record, SCREEN_ROWS, SIZE, VERSION};
use crate::row::Row;
use octets::{number, width, zero};
use values::attr::Attr;

// May a cell hold the character c?
#[tactic(auto, unfolding(crate::specs::Screen::printable))]
pub fn is_printable(c: u8) -> bool
    ensures { result ≡ printable c }
{
    c == 27 || c >= 32
}

// Are the bytes characters that a cell may hold?
pub fn all_printable(bytes: &[u8]) -> bool
    ensures { result ≡ every printable bytes.now }
{
    zero::all_pass(bytes, is_printable)
}

// Is the row one of W columns? The width is a constant, so that each test of bytes is as many vector instructions as it needs.
pub fn row_ok<const W: usize>(row: &Row) -> bool
    requires { W ≤ 80 }
    ensures { result ≡ valid_row W row.now }
{
    let (chars, attrs) = (row.chars(), row.attrs());
    row.flag() <= 1
        && all_printable(&chars[..W])
        && zero::all_zero(&chars[W..])
        && zero::all_zero(&attrs[W..])
}

#[tactic(auto, unfolding(crate::specs::Screen::valid_attr))]
fn attr_ok(a: Attr) -> bool
    ensures { result ≡ valid_attr a }
{
    a.foreground < 16 && a.background < 16
}

#[tactic(auto, unfolding(crate::specs::Screen::valid_head))]
pub fn head_ok(h: head::Head) -> bool
    ensures { result ≡ valid_head h }
{
    width::width_ok(h.width)
        && h.cursor.row < head::editable_rows(h.keys)
        && h.cursor.col < h.width
        && h.insert <= 1
        && h.cr <= 1
        && h.keys <= 1
        && attr_ok(h.attr)
}

#[tactic(auto, using(crate::proofs::ValidLaws::front_tested))]
fn front_ok(rec: &Record) -> bool
    ensures { result ≡ frontb rec.now }
{
    number::two_at(rec, 0) == SIZE && rec[2] == VERSION && head::read_touched(rec) < MASKS
}

// Are all rows of W columns?
fn rows_ok<const W: usize>(rec: &Record) -> bool
    requires { W ≤ 80 }
    ensures { result ≡ every (valid_row W) (rows_of rec.now) }
{
    (0..SCREEN_ROWS).all(
        |r|
            requires { (W ≤ 80) × (r < 25) }
            ensures { result ≡ valid_row W (row_of rec.entry.now r) }
        { row_ok::<W>(&Row::of(rec, r)) },
    )
}

// Is the slice a record as the layout asks?
#[tactic(auto, using(crate::proofs::ValidLaws::length_bad, crate::proofs::ValidLaws::record_test, crate::proofs::ValidLaws::head_bad, crate::proofs::ValidLaws::wide_done))]
pub fn valid(rec: &[u8]) -> bool
    ensures { result ≡ validb rec.now }
{
    let Some(rec) = rec.as_array() else {
        return false;
    };
    let h = head::read_head(rec);
    if !head_ok(h) {
        return false;
    }
    if !front_ok(rec) {
        return false;
    }
    if h.width == 40 {
        rows_ok::<40>(rec)
    } else {
        rows_ok::<80>(rec)
    }
}

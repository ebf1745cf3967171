// The reading calls: they answer a number and change nothing.
// Kept so: to C a number is a u32, and here a usize; no `From` leads from one to the other, so it is cast, and the proof has it that it fits.
#![tactic(auto, using(grid::proofs::RefusalLaws::range_tested, editor::proofs::PrintLaws::row_is, crate::proofs::ReadingLaws::ask_refused, crate::proofs::ReadingLaws::ask_outside, crate::proofs::ReadingLaws::ask_value), unfolding(crate::specs::Parts::cell_of, editor::specs::Outcome::value, editor::specs::Outcome::inside))]

ghost use Rattle.std.specs.Prelude.{◌≡◌, ◌<◌};
ghost use Rattle.octets.specs.Answer.{answered};
ghost use Rattle.queries.specs.Parts.{cell_of};
ghost use Rattle.editor.specs.Outcome.{asking, AskWidth, AskCursor, AskAttr, AskEditableRows, AskCell, AskContinues};

use grid::head;
use grid::layout::{Record, SCREEN_ROWS};
use grid::refusal::{in_range, record};
use grid::row::Row;
use octets::answer::Refusal;

pub fn width(rec: &[u8]) -> Result<u32, Refusal>
    ensures { answered result ≡ asking AskWidth rec.now }
{
    let h = head::read_head(record(rec, true)?);
    Ok(h.width as u32)
}

// Column + 256 × row.
pub fn cursor(rec: &[u8]) -> Result<u32, Refusal>
    ensures { answered result ≡ asking AskCursor rec.now }
{
    let h = head::read_head(record(rec, true)?);
    Ok((h.cursor.col + 256 * h.cursor.row) as u32)
}

pub fn attr(rec: &[u8]) -> Result<u32, Refusal>
    ensures { answered result ≡ asking AskAttr rec.now }
{
    let h = head::read_head(record(rec, true)?);
    Ok(u32::from(u8::from(h.attr)))
}

pub fn editable_rows(rec: &[u8]) -> Result<u32, Refusal>
    ensures { answered result ≡ asking AskEditableRows rec.now }
{
    let h = head::read_head(record(rec, true)?);
    Ok(head::editable_rows(h.keys) as u32)
}

#[tactic(auto, unfolding(crate::specs::Parts::cell_of))]
fn cell_at(rec: &Record, r: usize, c: usize) -> u32
    requires { (r < 25) × (c < 80) }
    ensures { result ≡ cell_of rec.now r c }
{
    let row = Row::of(rec, r);
    u32::from(row.char_at(c)) + 256 * u32::from(row.attr_at(c))
}

// Character + 256 × attribute, of all 25 rows whatever the keys say.
pub fn cell(rec: &[u8], r: u32, c: u32) -> Result<u32, Refusal>
    ensures { answered result ≡ asking (AskCell r c) rec.now }
{
    let rec = record(rec, true)?;
    let h = head::read_head(rec);
    let (r, c) = (r as usize, c as usize);
    in_range(r < SCREEN_ROWS && c < h.width)?;
    Ok(cell_at(rec, r, c))
}

pub fn continues(rec: &[u8], r: u32) -> Result<u32, Refusal>
    ensures { answered result ≡ asking (AskContinues r) rec.now }
{
    let rec = record(rec, true)?;
    let r = r as usize;
    in_range(r < SCREEN_ROWS)?;
    Ok(u32::from(Row::of(rec, r).flag()))
}

// Document 01, "Printing", and of document 02 the checked print, (l), and the waiting print, (a).
// Kept so: casts, for the reason in `modes`; and from usize to u32, where the proof has it that both numbers fit.
ghost use Rattle.octets.specs.Answer.{answered, done, found};
ghost use Rattle.editor.specs.Call.{Call, PrintBytes, PrintChecked, PrintWaiting};
ghost use Rattle.editor.specs.Outcome.{changing};
ghost use Rattle.calls.specs.Answers.{Answers};
ghost use Rattle.calls.specs.Parts.{Prints};

use crate::finish::finish_print;
use crate::refusal::{accepted, can_wait, whole_line_ends};
use editor::{print, waiting};
use grid::screen::Screen;
use octets::answer::Refusal;

// Of a waiting print: the largest limit of rows, and the longest input.
const MOST_ROWS: u32 = 1000;

const LONGEST_INPUT: usize = 65535;

// The prints that take all bytes: they differ in their own refusals.
fn printed(rec: &mut [u8], own: Result<(), Refusal>, bytes: &[u8]) -> Result<(), Refusal>
    ensures { (c : Call) → Prints c (found own) bytes.now rec.old → Answers (changing c rec.old) (done result) rec.new }
{
    accepted(rec, true, own)?;
    let rec = rec.as_mut_array().unwrap();
    let old = *rec;
    let h = print::print_bytes(rec, &Screen::of(&old), bytes);
    finish_print(rec, &old, h, bytes);
    Ok(())
}

pub fn print_bytes(rec: &mut [u8], bytes: &[u8]) -> Result<(), Refusal>
    ensures { Answers (changing (PrintBytes bytes.now) rec.old) (done result) rec.new }
{
    printed(rec, Ok(()), bytes)
}

// Refuses bytes that begin with 10 while the bit is set.
pub fn print_checked(rec: &mut [u8], bytes: &[u8]) -> Result<(), Refusal>
    ensures { Answers (changing (PrintChecked bytes.now) rec.old) (done result) rec.new }
{
    printed(rec, whole_line_ends(rec, bytes), bytes)
}

// Prints up to the byte that would scroll one row more than `rows`.
pub fn print_waiting(rec: &mut [u8], bytes: &[u8], rows: u32) -> Result<u32, Refusal>
    ensures { Answers (changing (PrintWaiting bytes.now rows) rec.old) (answered result) rec.new }
{
    let own = can_wait(rows <= MOST_ROWS, bytes.len() <= LONGEST_INPUT);
    accepted(rec, true, own)?;
    let rec = rec.as_mut_array().unwrap();
    let old = *rec;
    let w = waiting::print_waiting(rec, &Screen::of(&old), bytes, rows as usize);
    finish_print(rec, &old, w.head, &bytes[..w.taken]);
    Ok(w.taken as u32 + 65536 * w.scrolls as u32)
}

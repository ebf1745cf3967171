// Document 01, "Typing and line keys": the keys that take out, join, submit or end a logical line.
ghost use Rattle.octets.specs.Answer.{answered, done};
ghost use Rattle.editor.specs.Call.{EscapeLine, CtrlEnter, TakeLogicalLine, BreakLine};
ghost use Rattle.editor.specs.Outcome.{changing};
ghost use Rattle.calls.specs.Answers.{Answers, Submits};

use crate::change::changed;
use crate::finish::finish;
use crate::refusal::accepted;
use editor::lines;
use grid::screen::Screen;
use line::reading::put_reading;
use line::text::MAX_LOGICAL;
use octets::answer::Refusal;

pub fn escape_line(rec: &mut [u8]) -> Result<(), Refusal>
    ensures { Answers (changing EscapeLine rec.old) (done result) rec.new }
{
    changed(rec, Ok(()), lines::escape_line)
}

pub fn ctrl_enter(rec: &mut [u8]) -> Result<(), Refusal>
    ensures { Answers (changing CtrlEnter rec.old) (done result) rec.new }
{
    changed(rec, Ok(()), lines::ctrl_enter)
}

// Answers the length of the line that it hands out.
pub fn take_logical_line(rec: &mut [u8], out: &mut [u8]) -> Result<u32, Refusal>
    ensures { Submits (changing (TakeLogicalLine out.old) rec.old) (answered result) rec.new out.new }
{
    accepted(rec, out.len() >= MAX_LOGICAL, Ok(()))?;
    let rec = rec.as_mut_array().unwrap();
    let copy = *rec;
    let old = Screen::of(&copy);
    let text = lines::line_text(&old);
    let h = lines::take_logical_line(rec, &old);
    finish(rec, &copy, h);
    Ok(put_reading(out, text))
}

pub fn break_line(rec: &mut [u8]) -> Result<(), Refusal>
    ensures { Answers (changing BreakLine rec.old) (done result) rec.new }
{
    changed(rec, Ok(()), lines::break_line)
}

// Document 01, "Motion, modes": the moves.
ghost use Rattle.octets.specs.Answer.{done};
ghost use Rattle.editor.specs.Call.{MoveLeft, MoveRight, MoveUp, MoveDown, Home, EndOfLine, SetCursor, apply};
ghost use Rattle.grid.specs.Record.{Moves};
ghost use Rattle.editor.specs.Outcome.{changing};
ghost use Rattle.calls.specs.Answers.{Answers};

use crate::change::moved;
use grid::head::Head;
use grid::screen::Screen;
use moves::motion;
use octets::answer::Refusal;

pub fn move_left(rec: &mut [u8]) -> Result<(), Refusal>
    ensures { Answers (changing MoveLeft rec.old) (done result) rec.new }
{
    moved(rec, Ok(()), motion::move_left)
}

pub fn move_right(rec: &mut [u8]) -> Result<(), Refusal>
    ensures { Answers (changing MoveRight rec.old) (done result) rec.new }
{
    moved(rec, Ok(()), motion::move_right)
}

pub fn move_up(rec: &mut [u8]) -> Result<(), Refusal>
    ensures { Answers (changing MoveUp rec.old) (done result) rec.new }
{
    moved(rec, Ok(()), motion::move_up)
}

pub fn move_down(rec: &mut [u8]) -> Result<(), Refusal>
    ensures { Answers (changing MoveDown rec.old) (done result) rec.new }
{
    moved(rec, Ok(()), motion::move_down)
}

pub fn home(rec: &mut [u8]) -> Result<(), Refusal>
    ensures { Answers (changing Home rec.old) (done result) rec.new }
{
    moved(rec, Ok(()), motion::home)
}

pub fn end_of_line(rec: &mut [u8]) -> Result<(), Refusal>
    ensures { Answers (changing EndOfLine rec.old) (done result) rec.new }
{
    moved(rec, Ok(()), motion::end_of_line)
}

// Any row and column: the cursor is clamped.
pub fn set_cursor(rec: &mut [u8], row: u32, col: u32) -> Result<(), Refusal>
    ensures { Answers (changing (SetCursor row col) rec.old) (done result) rec.new }
{
    moved(
        rec,
        Ok(()),
        |s: &Screen| -> Head
            ensures { Moves (apply (SetCursor row col) s.now) s.now result }
        { motion::set_cursor(s, row, col) },
    )
}

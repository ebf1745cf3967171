// Document 01, "Motion, modes": the moves by words.
ghost use Rattle.octets.specs.Answer.{done};
ghost use Rattle.editor.specs.Call.{WordLeft, WordRight};
ghost use Rattle.editor.specs.Outcome.{changing};
ghost use Rattle.calls.specs.Answers.{Answers};

use crate::change::moved;
use moves::words;
use octets::answer::Refusal;

pub fn word_left(rec: &mut [u8]) -> Result<(), Refusal>
    ensures { Answers (changing WordLeft rec.old) (done result) rec.new }
{
    moved(rec, Ok(()), words::word_left)
}

pub fn word_right(rec: &mut [u8]) -> Result<(), Refusal>
    ensures { Answers (changing WordRight rec.old) (done result) rec.new }
{
    moved(rec, Ok(()), words::word_right)
}

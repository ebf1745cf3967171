// Document 01, "Typing and line keys": tab.
ghost use Rattle.octets.specs.Answer.{done};
ghost use Rattle.editor.specs.Call.{Tab};
ghost use Rattle.editor.specs.Outcome.{changing};
ghost use Rattle.calls.specs.Answers.{Answers};

use crate::change::changed;
use editor::tab;
use octets::answer::Refusal;

pub fn tab(rec: &mut [u8]) -> Result<(), Refusal>
    ensures { Answers (changing Tab rec.old) (done result) rec.new }
{
    changed(rec, Ok(()), tab::tab)
}

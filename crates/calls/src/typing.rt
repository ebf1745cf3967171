// Document 01, "Typing and line keys": the keys that type and erase characters.
// Kept so: casts, for the reason in `modes`, and of MAX_LOGICAL, which fits in a u32.
ghost use Rattle.std.specs.Prelude.{◌≡◌, ◌≤◌};
ghost use Rattle.octets.specs.Answer.{done};
ghost use Rattle.grid.specs.Record.{rows_of, Leaves};
ghost use Rattle.line.specs.Line.{MAX-LOGICAL};
ghost use Rattle.editor.specs.Call.{TypeChar, TypeLimited, Backspace, DeleteChar, EraseToEnd, apply};
ghost use Rattle.editor.specs.Outcome.{changing};
ghost use Rattle.calls.specs.Answers.{Answers};

use crate::change::changed;
use crate::refusal::can_limit;
use editor::typing;
use grid::head::Head;
use grid::layout::Record;
use grid::screen::Screen;
use line::text::MAX_LOGICAL;
use octets::answer::Refusal;

#[tactic(auto, using(editor::proofs::LimitedTyping::at_255))]
pub fn type_char(rec: &mut [u8], ch: u32) -> Result<(), Refusal>
    ensures { Answers (changing (TypeChar ch) rec.old) (done result) rec.new }
{
    type_limited(rec, ch, MAX_LOGICAL as u32)
}

// Document 02, (g): typing with a limit.
pub fn type_limited(rec: &mut [u8], ch: u32, limit: u32) -> Result<(), Refusal>
    ensures { Answers (changing (TypeLimited ch limit) rec.old) (done result) rec.new }
{
    changed(
        rec,
        can_limit(ch, limit as usize),
        |rec: &mut Record, old: &Screen| -> Head
            requires { (rows_of rec.old ≡ old.now.rows) × (ch ≤ 255) × (limit ≤ MAX-LOGICAL) }
            ensures { Leaves (apply (TypeLimited ch limit) old.now) rec.old rec.new result }
        { typing::type_limited(rec, old, ch as u8, limit as usize) },
    )
}

pub fn backspace(rec: &mut [u8]) -> Result<(), Refusal>
    ensures { Answers (changing Backspace rec.old) (done result) rec.new }
{
    changed(rec, Ok(()), typing::backspace)
}

pub fn delete_char(rec: &mut [u8]) -> Result<(), Refusal>
    ensures { Answers (changing DeleteChar rec.old) (done result) rec.new }
{
    changed(rec, Ok(()), typing::delete_char)
}

pub fn erase_to_end(rec: &mut [u8]) -> Result<(), Refusal>
    ensures { Answers (changing EraseToEnd rec.old) (done result) rec.new }
{
    changed(rec, Ok(()), typing::erase_to_end)
}

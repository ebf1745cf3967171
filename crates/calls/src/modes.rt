// Document 01, "Motion, modes": the modes, and the calls that blank the screen.
// Kept so: the calls that set a mode are alike, but each names its own call in its contract and in the clauses of its closure. Here and in `typing` and `print` a
// u32 of C is cast to usize, and to u8 behind the test of its range: no `From` leads there, and `try_from` would have a case that never comes.
ghost use Rattle.std.specs.Prelude.{◌≡◌, ◌≤◌};
ghost use Rattle.octets.specs.Answer.{done};
ghost use Rattle.grid.specs.Record.{rows_of, Leaves, Moves};
ghost use Rattle.editor.specs.Call.{Clear, SetWidth, SetInsert, SetAttr, SetKeysOn, apply};
ghost use Rattle.editor.specs.Outcome.{changing};
ghost use Rattle.calls.specs.Answers.{Answers};

use crate::change::{changed, moved};
use grid::head::Head;
use grid::layout::Record;
use grid::refusal::in_range;
use grid::screen::Screen;
use moves::modes;
use octets::answer::Refusal;
use octets::width::width_ok;

pub fn clear(rec: &mut [u8]) -> Result<(), Refusal>
    ensures { Answers (changing Clear rec.old) (done result) rec.new }
{
    changed(rec, Ok(()), modes::clear)
}

pub fn set_width(rec: &mut [u8], width: u32) -> Result<(), Refusal>
    ensures { Answers (changing (SetWidth width) rec.old) (done result) rec.new }
{
    changed(
        rec,
        in_range(width_ok(width as usize)),
        |rec: &mut Record, old: &Screen| -> Head
            requires { (rows_of rec.old ≡ old.now.rows) × (width ≤ 80) }
            ensures { Leaves (apply (SetWidth width) old.now) rec.old rec.new result }
        { modes::set_width(rec, old, width) },
    )
}

pub fn set_insert(rec: &mut [u8], on: u32) -> Result<(), Refusal>
    ensures { Answers (changing (SetInsert on) rec.old) (done result) rec.new }
{
    moved(
        rec,
        in_range(on <= 1),
        |s: &Screen| -> Head
            requires { on ≤ 255 }
            ensures { Moves (apply (SetInsert on) s.now) s.now result }
        { modes::set_insert(s, on as u8) },
    )
}

pub fn set_attr(rec: &mut [u8], attr: u32) -> Result<(), Refusal>
    ensures { Answers (changing (SetAttr attr) rec.old) (done result) rec.new }
{
    moved(
        rec,
        in_range(attr <= 255),
        |s: &Screen| -> Head
            requires { attr ≤ 255 }
            ensures { Moves (apply (SetAttr attr) s.now) s.now result }
        { modes::set_attr(s, attr as u8) },
    )
}

pub fn set_keys_on(rec: &mut [u8], on: u32) -> Result<(), Refusal>
    ensures { Answers (changing (SetKeysOn on) rec.old) (done result) rec.new }
{
    moved(
        rec,
        in_range(on <= 1),
        |s: &Screen| -> Head
            requires { on ≤ 255 }
            ensures { Moves (apply (SetKeysOn on) s.now) s.now result }
        { modes::set_keys_on(s, on as u8) },
    )
}

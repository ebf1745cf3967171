// What the changing calls have in common: each refuses first, in the documents' order, then works on the valid record, and has the front written at the end.
ghost use Rattle.std.specs.Prelude.{◌≡◌};
ghost use Rattle.octets.specs.Answer.{done, found};
ghost use Rattle.grid.specs.declared.head.Head.{Head};
ghost use Rattle.grid.specs.Record.{rows_of, Leaves, Moves};
ghost use Rattle.editor.specs.Call.{Call, apply};
ghost use Rattle.editor.specs.Outcome.{changing};
ghost use Rattle.calls.specs.Answers.{Answers};
ghost use Rattle.calls.specs.Parts.{Plain};

use crate::finish::{finish, finish_move};
use crate::refusal::accepted;
use grid::head::Head;
use grid::layout::Record;
use grid::screen::Screen;
use octets::answer::Refusal;

// The call c, which changes no row: work tells the head that it leaves. No row is touched, so it needs no copy of the record.
pub(crate) fn moved<F: FnOnce(&Screen) -> Head>(
    rec: &mut [u8],
    own: Result<(), Refusal>,
    work: F,
) -> Result<(), Refusal>
    ghost c: { Call }
    requires plain { Plain c (found own) 0 rec.old }
    requires may { (s : _) → found own ≡ 0 → F.pre work s }
    requires does { (s : _) (h : Head) → F.post work s h → Moves (apply c s.now) s.now h }
    ensures { Answers (changing c rec.old) (done result) rec.new }
{
    // Kept so: five functions begin with these two lines. One function of them would lend an array out of a slice behind a `Result`, which no clause tells yet
    // (docs/BORROWS.md of rt, `LendsIfOk`).
    accepted(rec, true, own)?;
    let rec = rec.as_mut_array().unwrap();
    let h = work(&Screen::of(rec));
    finish_move(rec, h);
    Ok(())
}

// The call c, which may change rows: work reads the screen as it was, leaves the rows in the record, and hands the head on.
pub(crate) fn changed<F: FnOnce(&mut Record, &Screen) -> Head>(
    rec: &mut [u8],
    own: Result<(), Refusal>,
    work: F,
) -> Result<(), Refusal>
    ghost c: { Call }
    requires plain { Plain c (found own) 0 rec.old }
    requires may { (r : _) (s : _) → found own ≡ 0 → rows_of r.now ≡ s.now.rows → F.pre work r s }
    requires does { (r : _) (s : _) (h : Head) (left : _) → F.post work r s h left → Leaves (apply c s.now) r.now left.now h }
    ensures { Answers (changing c rec.old) (done result) rec.new }
{
    accepted(rec, true, own)?;
    let rec = rec.as_mut_array().unwrap();
    let old = *rec;
    let h = work(rec, &Screen::of(&old));
    finish(rec, &old, h);
    Ok(())
}

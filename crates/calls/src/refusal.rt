// The refusals of changing calls, beside those that all calls on a record share.
ghost use Rattle.std.specs.Prelude.{◌≡◌, [], ◌∷◌, length, IfOk};
ghost use Rattle.octets.specs.Answer.{found};
ghost use Rattle.octets.specs.Refusals.{first_of};
ghost use Rattle.grid.specs.Facts.{Valid};
ghost use Rattle.grid.specs.Layout.{SIZE};
ghost use Rattle.grid.specs.Record.{serial_of, screen_of};
ghost use Rattle.editor.specs.Call.{PrintChecked, limited_ok, own};
ghost use Rattle.editor.specs.Outcome.{LAST-SERIAL};
ghost use Rattle.calls.specs.Parts.{change_found};

use editor::print;
use grid::head;
use grid::refusal::{in_range, record};
use line::text::MAX_LOGICAL;
use octets::answer::Refusal;

const LAST_SERIAL: u32 = 4294967295;

// Whether a changing call is refused: for the record's sake, by what its own refusals find, own, or by the last serial, which has no next. lengths: every other
// lent slice has a length that is taken.
#[tactic(auto, using(crate::proofs::RefusalLaws::record_refused, crate::proofs::RefusalLaws::own_refused, crate::proofs::RefusalLaws::last_refused, crate::proofs::RefusalLaws::not_refused))]
pub(crate) fn accepted(rec: &[u8], lengths: bool, own: Result<(), Refusal>) -> Result<(), Refusal>
    ensures refusal { found result ≡ change_found lengths (found own) rec.now }
    ensures valid { IfOk result (λ _. Valid rec.now) }
    ensures next { IfOk result (λ _. serial_of rec.now ≡ LAST-SERIAL → ⊥) }
{
    let rec = record(rec, lengths)?;
    own?;
    if head::read_pair(rec).serial == LAST_SERIAL {
        return Err(Refusal::SpentSerial);
    }
    Ok(())
}

// The checked print's own refusal, of a slice that has a record's length.
#[tactic(auto, using(crate::proofs::RefusalLaws::split_found, crate::proofs::RefusalLaws::split_none))]
pub(crate) fn whole_line_ends(rec: &[u8], bytes: &[u8]) -> Result<(), Refusal>
    ensures { length rec.now ≡ SIZE → found result ≡ first_of (own (PrintChecked bytes.now) (screen_of rec.now)) }
{
    let Some(rec) = rec.as_array() else {
        return Ok(());
    };
    if print::splits(rec, bytes) {
        return Err(Refusal::SplitLineEnd);
    }
    Ok(())
}

// The waiting print's own refusals. few: the limit of rows is in range; fits: the input is not too long.
#[tactic(auto, unfolding(octets::specs::Refusals::first_of))]
pub(crate) fn can_wait(few: bool, fits: bool) -> Result<(), Refusal>
    ensures { found result ≡ first_of ((3, few) ∷ (7, fits) ∷ []) }
{
    in_range(few)?;
    if !fits {
        return Err(Refusal::LongInput);
    }
    Ok(())
}

// Typing's own refusal, with a limit or without one of its own.
#[tactic(auto, using(std::proofs::lemmas::Bool::Decides::nat_tests), unfolding(editor::specs::Call::limited_ok))]
pub(crate) fn can_limit(ch: u32, limit: usize) -> Result<(), Refusal>
    ensures { found result ≡ first_of ((3, limited_ok ch limit) ∷ []) }
{
    let most = limit <= MAX_LOGICAL;
    in_range(1 <= limit && most && ch <= 255)
}

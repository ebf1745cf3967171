// The refusals that all calls on a lent screen record share.
ghost use Rattle.std.specs.Prelude.{◌≡◌, [], ◌∷◌, IfOk};
ghost use Rattle.octets.specs.Answer.{found};
ghost use Rattle.octets.specs.Refusals.{first_of};
ghost use Rattle.grid.specs.Refusals.{record_tests};
ghost use Rattle.grid.specs.Facts.{Valid};

use crate::layout::Record;
use crate::valid;
use octets::answer::Refusal;

// The record in the slice, unless a call is refused for its sake. lengths: every other lent slice has a length that is taken.
#[tactic(auto, using(crate::proofs::RefusalLaws::size_refused, crate::proofs::RefusalLaws::tests_left, crate::proofs::Validity::valid_facts))]
pub fn record(rec: &[u8], lengths: bool) -> Result<&Record, Refusal>
    ensures refusal { found result ≡ first_of (record_tests lengths rec.now) }
    ensures same { IfOk result (λ r. r.now ≡ rec.now) }
    ensures valid { IfOk result (λ r. Valid r.now) }
{
    let record = rec.as_array().ok_or(Refusal::WrongLength)?;
    if !lengths {
        return Err(Refusal::WrongLength);
    }
    if !valid::valid(record) {
        return Err(Refusal::BrokenLayout);
    }
    Ok(record)
}

// Refuses a call whose arguments are out of range: ok says that they are not.
#[tactic(auto, unfolding(octets::specs::Refusals::first_of))]
pub fn in_range(ok: bool) -> Result<(), Refusal>
    ensures { found result ≡ first_of ((3, ok) ∷ []) }
{
    if !ok {
        return Err(Refusal::OutOfRange);
    }
    Ok(())
}

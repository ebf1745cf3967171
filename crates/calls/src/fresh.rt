// New screen.
ghost use Rattle.octets.specs.Answer.{done, Writes};
ghost use Rattle.editor.specs.Outcome.{creating};

use octets::answer::Refusal;

// Takes any width and any sitting, and does not read the old bytes.
#[tactic(auto, using(crate::proofs::FreshLaws::new_refused, crate::proofs::FreshLaws::new_done))]
pub fn new_screen(rec: &mut [u8], width: u32, sitting: u32) -> Result<(), Refusal>
    ensures { Writes (creating width sitting rec.old) (done result) rec.new }
{
    let rec = rec.as_mut_array().ok_or(Refusal::WrongLength)?;
    grid::fresh::new_screen(rec, width, sitting);
    Ok(())
}

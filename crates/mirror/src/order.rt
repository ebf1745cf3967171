// How the pair of a report stands to the one shown. Which of two pairs is the later, `Pair` itself says.
ghost use Rattle.std.specs.Prelude.{◌≡◌};
ghost use Rattle.mirror.specs.Mirror.{due_at};

use grid::pair::Pair;
use report::front::Front;
use report::kind::Kind;

// A step is applied at the next serial of the shown sitting, a full report if its pair is later. The last serial has no next.
#[tactic(auto, using(crate::proofs::OrderLaws::step_due, crate::proofs::OrderLaws::full_due, crate::proofs::OrderLaws::gt_is))]
pub fn due(f: Front, shown: Pair) -> bool
    ensures { result ≡ due_at f.kind f.pair shown }
{
    let p = f.pair;
    match f.kind {
        Kind::Step => p.sitting == shown.sitting && shown.serial.checked_add(1) == Some(p.serial),
        Kind::Full => p > shown,
    }
}

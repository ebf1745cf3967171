// The two widths.
ghost use Rattle.std.specs.Prelude.{◌≡◌};
ghost use Rattle.octets.specs.Width.{widthb};

#[tactic(auto, using(std::proofs::lemmas::Bool::Decides::nat_tests), unfolding(crate::specs::Width::widthb))]
pub fn width_ok(w: usize) -> bool
    ensures { result ≡ widthb w }
{
    w == 40 || w == 80
}

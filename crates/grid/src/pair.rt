// A pair of sitting and serial: which screen a record holds.
ghost use Rattle.std.specs.Prelude.{◌≡◌, ◌+◌, ◌≤◌, length};
ghost use Rattle.octets.specs.Part.{write};
ghost use Rattle.grid.specs.Pair.{pair_at, pair_bytes};

use octets::number;

// Of two pairs the larger one is the later one: the sitting counts first.
#[derive(Clone, Copy, PartialEq, Eq, PartialOrd, Ord)]
pub struct Pair {
    pub sitting: u32,
    pub serial: u32,
}

// The pair whose serial stands from index at on, the sitting behind it.
#[tactic(auto, unfolding(crate::specs::Pair::pair_at))]
pub fn pair_at(src: &[u8], at: usize) -> Pair
    requires { at + 8 ≤ length src.now }
    ensures { result ≡ pair_at src.now at }
{
    Pair {
        sitting: number::four_at(src, at + 4),
        serial: number::four_at(src, at),
    }
}

// Writes the pair p there.
#[tactic(auto, using(crate::proofs::PairLaws::paired))]
pub fn put_pair(dst: &mut [u8], at: usize, p: Pair)
    requires { at + 8 ≤ length dst.old }
    ensures { dst.new ≡ write dst.old at (pair_bytes p) }
{
    number::put4(dst, at, p.serial);
    number::put4(dst, at + 4, p.sitting);
}

// A mask of rows: row r is bit r. No other code looks into a mask or sets a bit of one.
ghost use Rattle.std.specs.Prelude.{◌≡◌, ◌<◌};
ghost use Rattle.values.specs.Mask.{has_row, WithRow};

#[tactic(auto, using(crate::proofs::MaskLaws::row_tested))]
pub fn has_row(mask: u32, r: usize) -> bool
    requires { r < 32 }
    ensures { result ≡ has_row mask r }
{
    (mask >> r) & 1 == 1
}

pub fn with_row(mask: u32, r: usize) -> u32
    requires { r < 32 }
    ensures { WithRow mask r result }
{
    mask | (1 << r)
}

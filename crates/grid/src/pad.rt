// A row's 80 bytes, made from fewer.
ghost use Rattle.std.specs.Prelude.{◌≡◌, ◌+◌, ◌≤◌, length};
ghost use Rattle.grid.specs.Screen.{padded, spaced};
ghost use Rattle.octets.specs.Part.{write};

use octets::part;

// Writes w times v from index at on, and zeros up to 80 bytes.
#[tactic(auto, using(crate::proofs::PadLaws::padded_write))]
pub fn pad(rec: &mut [u8], at: usize, w: usize, v: u8)
    requires { (at + 80 ≤ length rec.old) × (w ≤ 80) }
    ensures { rec.new ≡ write rec.old at (padded w v) }
{
    part::fill(rec, at, w, v);
    part::fill(rec, at + w, 80 - w, 0);
}

// Writes a text at index at, with spaces up to w bytes and zeros up to 80.
#[tactic(auto, using(crate::proofs::PadLaws::text_written))]
pub fn put_text(rec: &mut [u8], at: usize, w: usize, text: &[u8])
    requires { (at + 80 ≤ length rec.old) × (w ≤ 80) × (length text.now ≤ w) }
    ensures { rec.new ≡ write rec.old at (spaced w text.now) }
{
    pad(rec, at, w, b' ');
    part::copy_in(rec, at, text);
}

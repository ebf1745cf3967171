// Parts of a byte slice: copied and filled.
// Kept so: here, and where fields are read and written, a place stands as slice and index: with `&mut rec[at..]` at each caller a contract would speak of a part, and
// each caller's proof would have to put the parts together.
ghost use Rattle.std.specs.Prelude.{◌≡◌, ◌+◌, ◌≤◌, length, replicate};
ghost use Rattle.octets.specs.Part.{window, write};

// Copies the bytes of src to index to of dst.
#[tactic(auto, using(crate::proofs::PartLaws::put_part))]
pub fn copy_in(dst: &mut [u8], to: usize, src: &[u8])
    requires { to + length src.now ≤ length dst.old }
    ensures { dst.new ≡ write dst.old to src.now }
{
    dst[to..to + src.len()].copy_from_slice(src);
}

// Copies n bytes from index from to index to, as they were: the two parts may overlap.
#[tactic(auto, using(crate::proofs::PartLaws::put_along))]
pub fn copy_along(rec: &mut [u8], from: usize, to: usize, n: usize)
    requires { (from + n ≤ length rec.old) × (to + n ≤ length rec.old) }
    ensures { rec.new ≡ write rec.old to (window rec.old from n) }
{
    rec.copy_within(from..from + n, to);
}

// Kept so: std's fill of a part takes two thirds longer here (new_screen 193 ns in place of 116), since it is a call for every row.
fn set_all(bytes: &mut [u8], v: u8)
    ensures { bytes.new ≡ replicate (length bytes.old) v }
{
    for byte in bytes {
        *byte = v;
    }
}

// Writes n times v from index at on.
#[tactic(auto, using(crate::proofs::PartLaws::put_part, crate::proofs::PartLaws::length_window, crate::proofs::PartLaws::part_window))]
pub fn fill(rec: &mut [u8], at: usize, n: usize, v: u8)
    requires { at + n ≤ length rec.old }
    ensures { rec.new ≡ write rec.old at (replicate n v) }
{
    set_all(&mut rec[at..at + n], v);
}

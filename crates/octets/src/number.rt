// Numbers of two and four bytes, the highest first.
// Kept so: two functions for each length, of two lines each: the numbers are of two types, usize and u32.
ghost use Rattle.std.specs.Prelude.{◌≡◌, ◌+◌, ◌≤◌, length, get_or};
ghost use Rattle.octets.specs.Part.{write};
ghost use Rattle.octets.specs.Number.{bytes2, bytes4, number2, four_at};

use crate::part;

// The number in the two bytes from index at on, the higher first.
pub fn two_at(rec: &[u8], at: usize) -> usize
    requires { at + 2 ≤ length rec.now }
    ensures { result ≡ number2 (get_or rec.now at 0) (get_or rec.now (at + 1) 0) }
{
    usize::from(u16::from_be_bytes([rec[at], rec[at + 1]]))
}

// The number in the four bytes from index at on, the highest first.
pub fn four_at(rec: &[u8], at: usize) -> u32
    requires { at + 4 ≤ length rec.now }
    ensures { result ≡ four_at rec.now at }
{
    u32::from_be_bytes([rec[at], rec[at + 1], rec[at + 2], rec[at + 3]])
}

// Writes a number as two bytes, the higher first: what is above them is cut off.
// Kept so: a cast, since no `From` leads from usize to u16, and what is left of the number fits.
#[tactic(auto, using(crate::proofs::NumberLaws::bytes_cut))]
pub fn put2(rec: &mut [u8], at: usize, n: usize)
    requires { at + 2 ≤ length rec.old }
    ensures { rec.new ≡ write rec.old at (bytes2 n) }
{
    part::copy_in(rec, at, &((n % 65536) as u16).to_be_bytes());
}

// Writes a number as four bytes, the highest first.
pub fn put4(rec: &mut [u8], at: usize, n: u32)
    requires { at + 4 ≤ length rec.old }
    ensures { rec.new ≡ write rec.old at (bytes4 n) }
{
    part::copy_in(rec, at, &n.to_be_bytes());
}

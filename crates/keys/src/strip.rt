// The strip: a slot of eight columns for each key shown.
ghost use Rattle.std.specs.Prelude.{◌≡◌, ◌≤◌, ◌<◌, length};
ghost use Rattle.octets.specs.Part.{write};
ghost use Rattle.keys.specs.Keys.{display, digit, slot, strip};

use crate::table::{KEYS, Lengths, Macros};

// A left arrow, which stands for 13 and 10.
pub const CR_GLYPH: u8 = 0x1B;

const SLOT: usize = 8;

#[tactic(auto, using(std::proofs::lemmas::Bool::Decides::nat_tests), unfolding(crate::specs::Keys::display))]
fn display_byte(b: u8) -> u8
    ensures { result ≡ display b }
{
    match b {
        b'\r' | b'\n' => CR_GLYPH,
        0..=0x1F | 0x7F => b'.',
        _ => b,
    }
}

// The tenth is 0.
// Kept so: a cast, since no `From` leads from usize to u8, and `try_from` would have a case that never comes. And that a key is below ten stands at five
// functions: a type for it would be made of a number at each call.
#[tactic(auto, unfolding(crate::specs::Keys::digit))]
fn digit(key: usize) -> u8
    requires { key < 10 }
    ensures { result ≡ digit key }
{
    if key == 9 { b'0' } else { b'1' + key as u8 }
}

// A key's slot: digit, first six display bytes, spaces to 8 columns.
#[tactic(auto, using(octets::proofs::PartLaws::write_none, crate::proofs::StripLaws::shown_turn))]
fn slot(macros: &Macros, lengths: &Lengths, key: usize) -> [u8; SLOT]
    requires { key < 10 }
    ensures { result ≡ slot macros.now lengths.now key }
{
    let n = lengths[key].min(6);
    let shown = &macros[key][..n];
    let mut slot = [b' '; SLOT];
    slot[0] = digit(key);
    for (i, b) in shown.iter().enumerate() {
        slot[1 + i] = display_byte(*b);
    }
    slot
}

// Writes the slots that the width has room for, from the key at the offset on, round ten.
// Kept so: two arrays and no table, since a caller may have macros and lengths of its own, of any lengths.
#[tactic(auto, using(crate::proofs::StripLaws::strip_start), unfolding(crate::specs::Keys::strip))]
pub fn strip(macros: Macros, lengths: Lengths, offset: usize, width: usize, out: &mut [u8])
    requires { (offset ≤ 9) × (width ≤ length out.old) }
    ensures { out.new ≡ write out.old 0 (strip macros lengths offset width) }
{
    for i in 0..width / SLOT {
        let key = (offset + i) % KEYS;
        out[SLOT * i..SLOT * i + SLOT].copy_from_slice(&slot(&macros, &lengths, key));
    }
}

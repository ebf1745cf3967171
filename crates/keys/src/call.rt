// The strip call: it refuses first, and writes the strip to a lent output.
ghost use Rattle.std.specs.Prelude.{◌≡◌, IfOk};
ghost use Rattle.octets.specs.Answer.{Writes, found, answered};
ghost use Rattle.octets.specs.Refusals.{first_of};
ghost use Rattle.keys.specs.Keys.{fits, strip_tests, stripping};

use crate::strip;
use crate::table::{self, Table};
use octets::answer::Refusal;
use octets::width;

// Is the output exactly the width asked? A bad width is refused for itself, and the length is then not tested.
#[tactic(auto, unfolding(crate::specs::Keys::fits))]
fn fits(width: usize, len: usize) -> bool
    ensures { result ≡ fits width len }
{
    !width::width_ok(width) || len == width
}

// The lent table, if nothing refuses the call.
#[tactic(auto, using(std::proofs::lemmas::Bool::Decides::nat_tests), unfolding(crate::specs::Keys::strip_tests, octets::specs::Refusals::first_of))]
fn accepted<'a>(tab: &'a [u8], offset: u32, width: usize, out: &[u8]) -> Result<&'a Table, Refusal>
    ensures refusal { found result ≡ first_of (strip_tests tab.now offset width out.now) }
    ensures table { IfOk result (λ t. t.now ≡ tab.now) }
{
    let table = tab.as_array().ok_or(Refusal::WrongLength)?;
    if !fits(width, out.len()) {
        return Err(Refusal::WrongLength);
    }
    if !table::table_ok(table) {
        return Err(Refusal::BrokenLayout);
    }
    if !width::width_ok(width) || offset > 9 {
        return Err(Refusal::OutOfRange);
    }
    Ok(table)
}

// Writes the strip of the key table tab, which starts with the key at the offset, to out, and answers the width.
#[tactic(auto, using(crate::proofs::CallLaws::strip_refused, crate::proofs::CallLaws::strip_may, crate::proofs::CallLaws::strip_done))]
pub fn keys_strip(tab: &[u8], offset: u32, width: u32, out: &mut [u8]) -> Result<u32, Refusal>
    ensures { Writes (stripping tab.now offset width out.old) (answered result) out.new }
{
    // Kept so: casts, since no `From` leads from u32 to usize, and `try_from` would have a case that never comes.
    let columns = width as usize;
    let tab = accepted(tab, offset, columns, out)?;
    let macros = table::macros_of(tab);
    let lengths = table::lengths_of(tab);
    strip::strip(macros, lengths, offset as usize, columns, out);
    Ok(width)
}

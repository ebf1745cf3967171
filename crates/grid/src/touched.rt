// Which rows of a record differ from those of another.
ghost use Rattle.std.specs.Prelude.{true, ◌&&◌, ◌≡◌, eqb};
ghost use Rattle.std.specs.List.{fold, zip};
ghost use Rattle.grid.specs.Screen.{same_row, touched_rows};
ghost use Rattle.grid.specs.Record.{rows_of};

use crate::layout::{Record, SCREEN_ROWS};
use crate::row::Row;
use values::mask;

// Are the bytes the same in both, of as many? All are looked at, with no early way out, so that it is compiled to vector instructions.
// Kept so: `==` of two slices takes a sixth longer in `changed_rows` (263 ns in place of 225).
fn alike(old: &[u8], new: &[u8]) -> bool
    ensures { result ≡ fold (λ all p. all && eqb p.0 p.1) true (zip old.now new.now) }
{
    old.iter()
        .zip(new)
        .fold(true, |all, (a, b)| all & (*a == *b))
}

#[tactic(auto, using(crate::proofs::TouchedLaws::bytes_same), unfolding(crate::specs::Screen::same_row))]
fn row_same(old: &Row, new: &Row) -> bool
    ensures { result ≡ same_row old.now new.now }
{
    old.flag() == new.flag() && alike(old.chars(), new.chars()) && alike(old.attrs(), new.attrs())
}

// The rows in which the records old and new differ: bit r for the row r.
pub fn changed_rows(old: &Record, new: &Record) -> u32
    ensures { result ≡ touched_rows (rows_of old.now) (rows_of new.now) }
{
    let mut mask = 0;
    for r in 0..SCREEN_ROWS {
        if !row_same(&Row::of(old, r), &Row::of(new, r)) {
            mask = mask::with_row(mask, r);
        }
    }
    mask
}

// The kinds of reports: the byte of each, the mask of its rows, and where its rows begin.
#![tactic(auto, unfolding(crate::specs::Kind::kind_byte, crate::specs::Kind::kind_of, crate::specs::Kind::mask_of, crate::specs::Kind::mask_fits, crate::specs::Kind::rows_at))]

ghost use Rattle.std.specs.Prelude.{◌≡◌, OkIff};
ghost use Rattle.report.specs.Kind.{kind_of, kind_byte, mask_of, mask_fits, rows_at};

use crate::layout::{ALL_ROWS, FULL, ROWS, STEP};
use grid::layout::MASKS;

#[derive(Clone, Copy, PartialEq, Eq)]
pub enum Kind {
    // The rows that the last call touched.
    Step,
    // All 25 rows.
    Full,
}

// The kind of a byte; a byte of none is taken for a step's, and the byte of the kind then tells that it is not.
pub fn kind_of(byte: u8) -> Kind
    ensures { result ≡ kind_of byte }
{
    if byte == FULL { Kind::Full } else { Kind::Step }
}

// A byte that is the byte of no kind.
#[derive(Clone, Copy, PartialEq, Eq)]
pub struct NoKind;

impl TryFrom<u8> for Kind {
    type Error = NoKind;

    ghost try_from_gives = { λ byte r. OkIff r (byte ≡ kind_byte (kind_of byte)) (kind_of byte) };

    fn try_from(byte: u8) -> Result<Kind, NoKind> {
        let kind = kind_of(byte);
        if u8::from(kind) == byte {
            Ok(kind)
        } else {
            Err(NoKind)
        }
    }
}

impl From<Kind> for u8 {
    ghost from_gives = { λ kind byte. byte ≡ kind_byte kind };

    fn from(kind: Kind) -> u8 {
        match kind {
            Kind::Step => STEP,
            Kind::Full => FULL,
        }
    }
}

impl Kind {
    // A step's mask is the touched rows, a full one's is that of all rows.
    pub fn mask_of(self, touched: u32) -> u32
        ensures { result ≡ mask_of self touched }
    {
        match self {
            Kind::Step => touched,
            Kind::Full => ALL_ROWS,
        }
    }

    pub fn mask_ok(self, mask: u32) -> bool
        ensures { result ≡ mask_fits self mask }
    {
        match self {
            Kind::Step => mask < MASKS,
            Kind::Full => mask == ALL_ROWS,
        }
    }

    // Where the rows of a report begin.
    // Kept so: an arm for each kind, since this is the one place that says it, and a kind to come has more before its rows (docs/DECISIONS.md).
    pub fn rows_at(self) -> usize
        ensures { result ≡ rows_at self }
    {
        match self {
            Kind::Step => ROWS,
            Kind::Full => ROWS,
        }
    }
}

// Document 01, "What a call answers": why a call is refused, and the number that it answers.
ghost use Rattle.std.specs.Prelude.{◌≡◌};
ghost use Rattle.octets.specs.Answer.{number_of, answered, done};

#[derive(Clone, Copy, PartialEq, Eq)]
pub enum Refusal {
    // 1: a lent slice has a length that is not taken.
    WrongLength,
    // 2: the screen, the mirror or the key table breaks its layout.
    BrokenLayout,
    // 3: an argument is out of range.
    OutOfRange,
    // 4: a changing call finds the last serial.
    SpentSerial,
    // 5: an arriving report breaks its layout.
    BrokenReport,
    // 6: a step changes the width without carrying all rows.
    WidthWithoutRows,
    // 7: the input of a waiting print is too long.
    LongInput,
    // 13: a checked print begins with 10 while the bit is set.
    SplitLineEnd,
}

// Refusal k answers this and k.
pub const REFUSED: u32 = 4294967040;

impl From<Refusal> for u32 {
    ghost from_gives = { λ refusal k. k ≡ number_of refusal };

    fn from(refusal: Refusal) -> u32 {
        match refusal {
            Refusal::WrongLength => 1,
            Refusal::BrokenLayout => 2,
            Refusal::OutOfRange => 3,
            Refusal::SpentSerial => 4,
            Refusal::BrokenReport => 5,
            Refusal::WidthWithoutRows => 6,
            Refusal::LongInput => 7,
            Refusal::SplitLineEnd => 13,
        }
    }
}

// What a call answers that answers a number of its own if it is accepted.
pub fn number(of: Result<u32, Refusal>) -> u32
    ensures { result ≡ answered of }
{
    match of {
        Ok(n) => n,
        Err(refusal) => REFUSED + u32::from(refusal),
    }
}

// What a call answers that then has nothing to tell.
pub fn done(of: Result<(), Refusal>) -> u32
    ensures { result ≡ done of }
{
    number(of.map(|_| 0))
}

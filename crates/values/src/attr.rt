// The attribute of a cell: two nibbles in one byte.
ghost use Rattle.std.specs.Prelude.{◌≡◌};
ghost use Rattle.values.specs.Attr.{attr_of, byte_of};

#[derive(Clone, Copy, PartialEq, Eq)]
pub struct Attr {
    pub foreground: u8,
    pub background: u8,
}

impl Attr {
    pub const NORMAL: Attr = Attr {
        foreground: 7,
        background: 0,
    };
}

// Foreground is the low nibble and background is the high nibble.
impl From<u8> for Attr {
    ghost from_gives = { λ byte attr. attr ≡ attr_of byte };

    #[tactic(auto, using(crate::proofs::AttrLaws::attr_split))]
    fn from(byte: u8) -> Attr {
        Attr {
            foreground: byte & 15,
            background: byte >> 4,
        }
    }
}

impl From<Attr> for u8 {
    ghost from_gives = { λ attr byte. byte ≡ byte_of attr };

    #[tactic(auto, using(crate::proofs::AttrLaws::attr_joined))]
    fn from(attr: Attr) -> u8 {
        ((attr.background & 15) << 4) | (attr.foreground & 15)
    }
}

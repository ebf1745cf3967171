// The characters of a logical line: while it is edited, and as it is read.
ghost use Rattle.std.specs.Prelude.{◌≡◌, ◌+◌, ◌≤◌, ◌<◌, [], ◌∷◌, ◌++◌, length, take, drop, set};
ghost use Rattle.line.specs.Line.{MAX-LOGICAL};

// The most characters of a logical line.
pub const MAX_LOGICAL: usize = 255;

// The characters while they are edited, with the cursor's index.
// Kept so: no heap is a rule of the project: an array, and how much of it counts, in the place of a `Vec<u8>`.
#[derive(Clone, Copy)]
pub struct Text {
    pub bytes: [u8; MAX_LOGICAL],
    pub len: usize,
    pub index: usize,
    pub ghost size: { length bytes ≡ MAX-LOGICAL },
    pub ghost fits: { len ≤ MAX-LOGICAL },
    pub ghost within: { index ≤ len },
}

// The characters as they are handed out.
// Kept so: as `Text`; and a struct of its own, since a reading has no cursor index: as a part of `Text` it would make `t.reading.len` of every `t.len`.
#[derive(Clone, Copy)]
pub struct Reading {
    pub bytes: [u8; MAX_LOGICAL],
    pub len: usize,
    pub ghost size: { length bytes ≡ MAX-LOGICAL },
    pub ghost fits: { len ≤ MAX-LOGICAL },
}

impl Text {
    ghost use Rattle.line.specs.Text.{Holds, text_of};

    // ch at the cursor, and what stood from there on one place further.
    #[tactic(auto, using(crate::proofs::TextLaws::inserted_end))]
    pub fn inserted(self, ch: u8) -> Text
        requires { self.len < MAX-LOGICAL }
        ensures { Holds result (take self.index (text_of self) ++ (ch ∷ drop self.index (text_of self))) (self.index + 1) }
    {
        let Text {
            mut bytes,
            len,
            index,
        } = self;
        bytes.copy_within(index..len, index + 1);
        bytes[index] = ch;
        Text {
            bytes,
            len: len + 1,
            index: index + 1,
        }
    }

    // ch in the place of the character at the cursor.
    #[tactic(auto, using(crate::proofs::TextLaws::replaced_end))]
    pub fn replaced(self, ch: u8) -> Text
        requires { self.index < self.len }
        ensures { Holds result (set (text_of self) self.index ch) (self.index + 1) }
    {
        let Text {
            mut bytes,
            len,
            index,
        } = self;
        bytes[index] = ch;
        Text {
            bytes,
            len,
            index: index + 1,
        }
    }

    // ch behind the last character.
    #[tactic(auto, using(crate::proofs::TextLaws::extended_end))]
    pub fn extended(self, ch: u8) -> Text
        requires { self.len < MAX-LOGICAL }
        ensures { Holds result (text_of self ++ (ch ∷ [])) (self.index + 1) }
    {
        let Text {
            mut bytes,
            len,
            index,
        } = self;
        bytes[len] = ch;
        Text {
            bytes,
            len: len + 1,
            index: index + 1,
        }
    }

    // Without the character at index at, and the cursor there.
    #[tactic(auto, using(crate::proofs::TextLaws::removed_end))]
    pub fn removed(self, at: usize) -> Text
        requires { at < self.len }
        ensures { Holds result (take at (text_of self) ++ drop (at + 1) (text_of self)) at }
    {
        let Text { mut bytes, len, .. } = self;
        bytes.copy_within(at + 1..len, at);
        Text {
            bytes,
            len: len - 1,
            index: at,
        }
    }

    // The characters before the cursor.
    #[tactic(auto, using(crate::proofs::TextLaws::cut_end))]
    pub fn cut(self) -> Text
        ensures { Holds result (take self.index (text_of self)) self.index }
    {
        let Text { bytes, index, .. } = self;
        Text {
            bytes,
            len: index,
            index,
        }
    }
}

// The cursor, and its moves in w columns and e rows: each hands the new cursor back.
// Kept so: w and e stand as numbers beside the cursor, and what they have to be at each move: these are public functions, and a type of (w, e) would ask more of
// who calls.
ghost use Rattle.std.specs.Prelude.{◌≡◌, ◌<◌};
ghost use Rattle.values.specs.Cursor.{at, left, right, up, down, clamp};

#[derive(Clone, Copy, PartialEq, Eq)]
pub struct Cursor {
    pub row: usize,
    pub col: usize,
}

impl Cursor {
    pub const HOME: Cursor = Cursor { row: 0, col: 0 };

    pub fn new(row: usize, col: usize) -> Cursor
        ensures { result ≡ at row col }
    {
        Cursor { row, col }
    }

    // Over the row's start to the row above.
    #[tactic(auto, using(octets::proofs::Bools::choice), unfolding(crate::specs::Cursor::left))]
    pub fn left(self, w: usize) -> Cursor
        requires { 0 < w }
        ensures { result ≡ left w self }
    {
        if 0 < self.col {
            return Cursor {
                col: self.col - 1,
                ..self
            };
        }
        if 0 < self.row {
            return Cursor {
                row: self.row - 1,
                col: w - 1,
            };
        }
        self
    }

    // Over the row's end to the row below.
    #[tactic(auto, using(octets::proofs::Bools::choice), unfolding(crate::specs::Cursor::right))]
    pub fn right(self, w: usize, e: usize) -> Cursor
        requires { (self.col < w) × (self.row < e) }
        ensures { result ≡ right w e self }
    {
        if self.col + 1 < w {
            return Cursor {
                col: self.col + 1,
                ..self
            };
        }
        if self.row + 1 < e {
            return Cursor {
                row: self.row + 1,
                col: 0,
            };
        }
        self
    }

    #[tactic(auto, using(octets::proofs::Bools::choice), unfolding(crate::specs::Cursor::up))]
    pub fn up(self) -> Cursor
        ensures { result ≡ up self }
    {
        if 0 < self.row {
            return Cursor {
                row: self.row - 1,
                ..self
            };
        }
        self
    }

    #[tactic(auto, using(octets::proofs::Bools::choice), unfolding(crate::specs::Cursor::down))]
    pub fn down(self, e: usize) -> Cursor
        requires { self.row < e }
        ensures { result ≡ down e self }
    {
        let row = self.row;
        if row + 1 < e {
            return Cursor {
                row: row + 1,
                ..self
            };
        }
        self
    }

    // The nearest place.
    #[tactic(auto, using(crate::proofs::CursorLaws::cursor_eq), unfolding(crate::specs::Cursor::clamp))]
    pub fn clamp(self, w: usize, e: usize) -> Cursor
        requires { (0 < w) × (0 < e) }
        ensures { result ≡ clamp w e self }
    {
        Cursor {
            row: self.row.min(e - 1),
            col: self.col.min(w - 1),
        }
    }

    pub fn home(self) -> Cursor
        ensures { result ≡ at 0 0 }
    {
        Cursor::HOME
    }
}

// A valid screen to read from: the rows of a record, and a head.
ghost use Rattle.std.specs.Prelude.{◌≡◌};
ghost use Rattle.grid.specs.Record.{screen_of};
ghost use Rattle.grid.specs.Facts.{Valid};

use crate::head;
use crate::head::Head;
use crate::layout::Record;
use std::marker::Model;

// The head is the record's own, or the one that a call will leave.
// Kept so: a function that writes rows of a record asks that they are still those of the screen `old` that it reads (`rows_of rec.old ≡ old.now.rows`). That holds
// until its first write. A struct of the two that holds the record as a `&mut`, with this as a ghost field, was tried: the check asks for it after the write too.
#[derive(Drop)]
pub struct Screen<'a> {
    pub rec: &'a Record,
    pub head: Head,
}

impl<'a> Model for Screen<'a> {
    ghost use Rattle.grid.specs.Screen.{Screen};
    ghost use Rattle.grid.specs.Record.{screen_with};
    ghost use Rattle.grid.specs.Facts.{Known};

    ghost Value = { Screen };

    ghost view = { λ s. screen_with s.head s.rec.now };

    ghost invariant = { λ s. Known s.rec.now s.head };
}

impl<'a> Screen<'a> {
    // The screen that a valid record holds.
    pub fn of(rec: &'a Record) -> Screen<'a>
        requires { Valid rec.now }
        ensures { result ≡ screen_of rec.now }
    {
        Screen {
            rec,
            head: head::read_head(rec),
        }
    }
}

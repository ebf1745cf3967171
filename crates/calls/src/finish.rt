// The end of every changing call: the front of its record is written anew, with the bit of document 02, (l), as the call leaves it.
ghost use Rattle.std.specs.Prelude.{◌≡◌};
ghost use Rattle.grid.specs.Pair.{next_pair};
ghost use Rattle.grid.specs.Screen.{with_cr};
ghost use Rattle.grid.specs.Record.{head_of, pair_of, serial_of};
ghost use Rattle.grid.specs.Facts.{HeadFits};
ghost use Rattle.editor.specs.Call.{last_cr};
ghost use Rattle.editor.specs.Outcome.{LAST-SERIAL};
ghost use Rattle.calls.specs.Parts.{changed_from, moved_next};

use editor::print;
use grid::head;
use grid::head::{Head, Stamp};
use grid::layout::Record;
use grid::pair::Pair;
use grid::touched::changed_rows;

// The next serial of the same sitting.
#[tactic(auto, unfolding(grid::specs::Pair::next_pair))]
fn next_pair(rec: &Record) -> Pair
    requires { serial_of rec.now ≡ LAST-SERIAL → ⊥ }
    ensures { result ≡ next_pair (pair_of rec.now) }
{
    let was = head::read_pair(rec);
    Pair {
        serial: was.serial + 1,
        ..was
    }
}

// Writes the head h, the next serial and the rows that differ from the record's copy old.
#[tactic(auto, unfolding(crate::specs::Parts::changed_from))]
fn write_changed(rec: &mut Record, old: &Record, h: Head)
    requires { HeadFits h × (serial_of old.now ≡ LAST-SERIAL → ⊥) }
    ensures { rec.new ≡ changed_from old.now h rec.old }
{
    let stamp = Stamp {
        pair: next_pair(old),
        touched: changed_rows(old, rec),
    };
    head::write_front(rec, h, stamp);
}

// The end of a call that may have changed rows, where old is the record's copy; it clears the bit.
#[tactic(auto, using(crate::proofs::FinishLaws::bit_fits))]
pub fn finish(rec: &mut Record, old: &Record, h: Head)
    requires { HeadFits h × (serial_of old.now ≡ LAST-SERIAL → ⊥) }
    ensures { rec.new ≡ changed_from old.now (with_cr h 0) rec.old }
{
    write_changed(rec, old, h.with_cr(0));
}

// The end of a print of bytes, whose last one decides about the bit.
#[tactic(auto, using(crate::proofs::FinishLaws::bit_fits))]
pub fn finish_print(rec: &mut Record, old: &Record, h: Head, bytes: &[u8])
    requires { HeadFits h × (serial_of old.now ≡ LAST-SERIAL → ⊥) }
    ensures { rec.new ≡ changed_from old.now (with_cr h (last_cr (head_of old.now).cr bytes.now)) rec.old }
{
    write_changed(rec, old, h.with_cr(print::cr_left(old, bytes)));
}

// The end of a call that changes no row: nothing is touched, and the bit is cleared.
#[tactic(auto, using(crate::proofs::FinishLaws::bit_fits), unfolding(crate::specs::Parts::moved_from, crate::specs::Parts::moved_next))]
pub fn finish_move(rec: &mut Record, h: Head)
    requires { HeadFits h × (serial_of rec.old ≡ LAST-SERIAL → ⊥) }
    ensures { rec.new ≡ moved_next (with_cr h 0) rec.old }
{
    let stamp = Stamp {
        pair: next_pair(rec),
        touched: 0,
    };
    head::write_front(rec, h.with_cr(0), stamp);
}

// The front of a record, what stands before its rows: the head, and the stamp of the call that left it.
ghost use Rattle.std.specs.Prelude.{◌≡◌, ◌+◌, ◌≤◌, ◌++◌, length, drop};
ghost use Rattle.octets.specs.Part.{write};
ghost use Rattle.grid.specs.Layout.{FLAGS};
ghost use Rattle.grid.specs.Screen.{editable, with_width, with_cursor, with_insert, with_cr, with_keys, with_attr};
ghost use Rattle.grid.specs.Facts.{HeadFits};
ghost use Rattle.grid.specs.Record.{head_at, head_of, bits_byte, head_bytes, pair_of, touched_of, stamp_of, front_bytes};

use crate::layout::{HEAD, PAIR, Record, SIZE, TOUCHED, VERSION};
use crate::pair;
use crate::pair::Pair;
use octets::number;
use values::attr::Attr;
use values::cursor::Cursor;

// Kept so: `width`, `cr` and `keys` are numbers, since a head is read of any bytes, also of a broken record that holds another number there, which the test of
// the layout must see.
#[derive(Clone, Copy, PartialEq, Eq)]
pub struct Head {
    pub width: usize,
    pub cursor: Cursor,
    // Kept so: a number, as `with_insert` takes any, and a bool would ask more of who calls. It is read as one bit, so it is 0 or 1 in a head that was read.
    pub insert: u8,
    // Document 02, (l): that a print ended with 13; 0 or 1 in a valid record.
    pub cr: u8,
    pub keys: u8,
    pub attr: Attr,
}

// What a call leaves beside the screen: the record's sitting and serial, and the rows that the call touched.
#[derive(Clone, Copy, PartialEq, Eq)]
pub struct Stamp {
    pub pair: Pair,
    pub touched: u32,
}

impl Head {
    pub fn with_width(self, width: usize) -> Head
        ensures { result ≡ with_width self width }
    {
        Head { width, ..self }
    }

    pub fn with_cursor(self, cursor: Cursor) -> Head
        ensures { result ≡ with_cursor self cursor }
    {
        Head { cursor, ..self }
    }

    pub fn with_insert(self, insert: u8) -> Head
        ensures { result ≡ with_insert self insert }
    {
        Head { insert, ..self }
    }

    pub fn with_cr(self, cr: u8) -> Head
        ensures { result ≡ with_cr self cr }
    {
        Head { cr, ..self }
    }

    pub fn with_keys(self, keys: u8) -> Head
        ensures { result ≡ with_keys self keys }
    {
        Head { keys, ..self }
    }

    pub fn with_attr(self, attr: Attr) -> Head
        ensures { result ≡ with_attr self attr }
    {
        Head { attr, ..self }
    }
}

// E: one less where the keys are on.
#[tactic(auto, unfolding(crate::specs::Screen::editable))]
pub fn editable_rows(keys: u8) -> usize
    ensures { result ≡ editable keys }
{
    if keys == 1 { 24 } else { 25 }
}

// The head whose first byte stands at index at.
#[tactic(auto, using(crate::proofs::HeadLaws::head_read))]
pub fn head_at(src: &[u8], at: usize) -> Head
    requires { at + 6 ≤ length src.now }
    ensures { result ≡ head_at src.now at }
{
    let bits = src[at + 3];
    Head {
        width: usize::from(src[at]),
        cursor: Cursor {
            row: usize::from(src[at + 1]),
            col: usize::from(src[at + 2]),
        },
        insert: bits & 1,
        cr: bits >> 1,
        keys: src[at + 4],
        attr: Attr::from(src[at + 5]),
    }
}

// Insert in the lowest bit, cr in the next one.
#[tactic(auto, using(crate::proofs::HeadLaws::bits_joined))]
fn bits_byte(insert: u8, cr: u8) -> u8
    ensures { result ≡ bits_byte insert cr }
{
    ((cr & 1) << 1) | (insert & 1)
}

// Writes the head h there.
// Kept so: `HeadFits` stands at each function that writes a head, and is no ghost field of it: `with_width` and `with_cursor` take any number. And the numbers
// are cast: no `From` leads from usize to u8, and `try_from` would have a case that never comes.
#[tactic(auto, using(crate::proofs::HeadLaws::headed))]
pub fn put_head(dst: &mut [u8], at: usize, h: Head)
    requires { (at + 6 ≤ length dst.old) × HeadFits h }
    ensures { dst.new ≡ write dst.old at (head_bytes h) }
{
    dst[at] = h.width as u8;
    dst[at + 1] = h.cursor.row as u8;
    dst[at + 2] = h.cursor.col as u8;
    dst[at + 3] = bits_byte(h.insert, h.cr);
    dst[at + 4] = h.keys;
    dst[at + 5] = u8::from(h.attr);
}

#[tactic(auto, unfolding(crate::specs::Record::head_of))]
pub fn read_head(rec: &Record) -> Head
    ensures { result ≡ head_of rec.now }
{
    head_at(rec, HEAD)
}

#[tactic(auto, unfolding(crate::specs::Record::pair_of))]
pub fn read_pair(rec: &Record) -> Pair
    ensures { result ≡ pair_of rec.now }
{
    pair::pair_at(rec, PAIR)
}

#[tactic(auto, unfolding(crate::specs::Record::touched_of))]
pub fn read_touched(rec: &Record) -> u32
    ensures { result ≡ touched_of rec.now }
{
    number::four_at(rec, TOUCHED)
}

#[tactic(auto, unfolding(crate::specs::Record::stamp_of))]
pub fn read_stamp(rec: &Record) -> Stamp
    ensures { result ≡ stamp_of rec.now }
{
    Stamp {
        pair: read_pair(rec),
        touched: read_touched(rec),
    }
}

// Writes what stands before the rows.
// Kept so: the fronts of a mirror and of a report begin alike, with length and version, in two lines each, and go on with other fields.
#[tactic(auto, using(crate::proofs::HeadLaws::fronted))]
pub fn write_front(rec: &mut Record, h: Head, stamp: Stamp)
    requires { HeadFits h }
    ensures { rec.new ≡ front_bytes h stamp ++ drop FLAGS rec.old }
{
    pair::put_pair(rec, PAIR, stamp.pair);
    number::put4(rec, TOUCHED, stamp.touched);
    put_head(rec, HEAD, h);
    number::put2(rec, 0, SIZE);
    rec[2] = VERSION;
}

// The rows of a record: read, as values of the type `Row`, copied, blanked, scrolled, and written from a text; their cells and their flags.
// Kept so: r is a number that is asked to be less than 25, and c one less than 80. A type of such numbers would have to be made at each call, of the number that
// a loop, a plan or a head gives, and would say no more. So with counts of rows, up to 25, and with a width w ≤ 80 beside a row: a row of a report, or of a
// record that is not yet known to be valid, has none of its own.
ghost use Rattle.std.specs.Prelude.{ℕ, Bool, ◌≡◌, ◌≤◌, ◌<◌, ◌++◌, length, get_or, take, drop, set, replicate};
ghost use Rattle.grid.specs.Screen.{Row, blank_row, line_row, put_cell, flag_row, scrolled, trim_by, trim};
ghost use Rattle.grid.specs.Record.{row_of, rows_of, Becomes};

use crate::layout::{ATTRS, CHARS, FLAGS, Record, STRIDE};
use crate::pad;
use octets::part;
use std::marker::Model;
use values::attr::Attr;

// A row to read: of a record, or as a report carries it.
#[derive(Drop)]
pub struct Row<'a> {
    // Kept so: the byte that stands there, which the test of a layout has to see; and who sets it may give any.
    flag: u8,
    chars: &'a [u8; STRIDE],
    attrs: &'a [u8; STRIDE],
}

impl<'a> Model for Row<'a> {
    ghost use Rattle.std.specs.Prelude.{◌≡◌, length};
    ghost use Rattle.grid.specs.Screen.{Row};

    ghost Value = { Row };

    ghost view = { λ x. record { flag = x.flag; chars = x.chars.now; attrs = x.attrs.now } };

    ghost invariant = { λ x. (length x.chars.now ≡ 80) × (length x.attrs.now ≡ 80) };
}

// The length of the bytes without those at the end that `drop` passes, whatever test p it is.
pub fn length_without<F: Fn(u8) -> bool>(bytes: &[u8], drop: F) -> usize
    requires { (c : ℕ) → F.pre drop c }
    ensures length { (p : ℕ → Bool) → ((c : ℕ) (b : Bool) → F.post drop c b → b ≡ p c) → result ≡ length (trim_by p bytes.now) }
    ensures most { result ≤ length bytes.now }
{
    bytes.iter().rposition(|c| !drop(*c)).map_or(0, |i| i + 1)
}

// The length of the bytes without trailing spaces.
pub fn stripped_length(bytes: &[u8]) -> usize
    ensures { (result ≡ length (trim bytes.now)) × (result ≤ length bytes.now) }
{
    length_without(bytes, |c| c == b' ')
}

impl<'a> Row<'a> {
    pub fn new(flag: u8, chars: &'a [u8; STRIDE], attrs: &'a [u8; STRIDE]) -> Row<'a>
        ensures { result ≡ record { flag = flag; chars = chars.now; attrs = attrs.now } }
    {
        Row { flag, chars, attrs }
    }

    // The row r of a record.
    pub fn of(rec: &'a Record, r: usize) -> Row<'a>
        requires { r < 25 }
        ensures { result ≡ row_of rec.now r }
    {
        let (chars, attrs) = (CHARS + STRIDE * r, ATTRS + STRIDE * r);
        Row::new(
            rec[FLAGS + r],
            rec[chars..chars + STRIDE].as_array().unwrap(),
            rec[attrs..attrs + STRIDE].as_array().unwrap(),
        )
    }

    pub fn flag(&self) -> u8
        ensures { result ≡ self.now.flag }
    {
        self.flag
    }

    pub fn chars(&self) -> &'a [u8; STRIDE]
        ensures { (result.now ≡ self.now.chars) × (length self.now.chars ≡ 80) }
    {
        self.chars
    }

    pub fn attrs(&self) -> &'a [u8; STRIDE]
        ensures { (result.now ≡ self.now.attrs) × (length self.now.attrs ≡ 80) }
    {
        self.attrs
    }

    pub fn char_at(&self, c: usize) -> u8
        requires { c < 80 }
        ensures { result ≡ get_or self.now.chars c 0 }
    {
        self.chars[c]
    }

    pub fn attr_at(&self, c: usize) -> u8
        requires { c < 80 }
        ensures { result ≡ get_or self.now.attrs c 0 }
    {
        self.attrs[c]
    }

    // The length of the first w characters' text: without trailing spaces.
    pub fn text_length(&self, w: usize) -> usize
        requires { w ≤ 80 }
        ensures { (result ≡ length (trim (take w self.now.chars))) × (result ≤ w) }
    {
        stripped_length(&self.chars()[..w])
    }
}

// Makes the row r that of another record, or a report's.
pub fn put_row(rec: &mut Record, r: usize, row: &Row)
    requires { r < 25 }
    ensures { Becomes rec.old rec.new (set (rows_of rec.old) r row.now) }
{
    part::copy_in(rec, CHARS + STRIDE * r, row.chars());
    part::copy_in(rec, ATTRS + STRIDE * r, row.attrs());
    rec[FLAGS + r] = row.flag();
}

// A blank row: spaces in an attribute, up to the width.
#[derive(Clone, Copy)]
pub struct Blank {
    pub width: usize,
    pub attr: Attr,
    pub ghost most: { width ≤ 80 },
}

// Makes the row r blank, with zeros beyond the width.
#[tactic(auto, using(crate::proofs::RowLaws::blanked))]
pub fn blank_row(rec: &mut Record, r: usize, blank: Blank)
    requires { r < 25 }
    ensures { Becomes rec.old rec.new (set (rows_of rec.old) r (blank_row blank.width blank.attr)) }
{
    line_row(rec, r, blank, 0, &[]);
}

// Makes the row r a text on a blank row, with the flag given.
pub fn line_row(rec: &mut Record, r: usize, blank: Blank, flag: u8, text: &[u8])
    requires { (r < 25) × (length text.now ≤ blank.width) }
    ensures { Becomes rec.old rec.new (set (rows_of rec.old) r (line_row blank.width blank.attr flag text.now)) }
{
    pad::put_text(rec, CHARS + STRIDE * r, blank.width, text);
    pad::pad(rec, ATTRS + STRIDE * r, blank.width, u8::from(blank.attr));
    rec[FLAGS + r] = flag;
}

// Writes the character ch, in the attribute attr, at row r and column c.
pub fn put_cell(rec: &mut Record, r: usize, c: usize, ch: u8, attr: Attr)
    requires { (r < 25) × (c < 80) }
    ensures { Becomes rec.old rec.new (set (rows_of rec.old) r (put_cell c ch attr (row_of rec.old r))) }
{
    rec[CHARS + STRIDE * r + c] = ch;
    rec[ATTRS + STRIDE * r + c] = u8::from(attr);
}

pub fn set_flag(rec: &mut Record, r: usize, flag: u8)
    requires { r < 25 }
    ensures { Becomes rec.old rec.new (set (rows_of rec.old) r (flag_row flag (row_of rec.old r))) }
{
    rec[FLAGS + r] = flag;
}

// Makes the first n rows blank.
#[tactic(auto, using(crate::proofs::RowScroll::blank_start, crate::proofs::RowScroll::blank_turn, crate::proofs::RowScroll::blank_end))]
pub fn blank_rows(rec: &mut Record, n: usize, blank: Blank)
    requires { n ≤ 25 }
    ensures { Becomes rec.old rec.new (replicate n (blank_row blank.width blank.attr) ++ drop n (rows_of rec.old)) }
{
    for r in 0..n {
        blank_row(rec, r, blank);
    }
}

// Moves the rows 1 to e - 1 up by one, with their flags, and makes the row e - 1 blank.
pub fn scroll_up(rec: &mut Record, e: usize, blank: Blank)
    requires { (1 ≤ e) × (e ≤ 25) }
    ensures { Becomes rec.old rec.new (scrolled (rows_of rec.old) e (blank_row blank.width blank.attr)) }
{
    // Each region at once, so that each is one move of memory.
    part::copy_along(rec, CHARS + STRIDE, CHARS, STRIDE * (e - 1));
    part::copy_along(rec, ATTRS + STRIDE, ATTRS, STRIDE * (e - 1));
    part::copy_along(rec, FLAGS + 1, FLAGS, e - 1);
    blank_row(rec, e - 1, blank);
}

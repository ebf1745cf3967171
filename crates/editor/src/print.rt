// Printing: bytes written at the cursor, from row to row, and the step to the next row; and the bit of document 02, (l), that a print ended with 13.
ghost use Rattle.std.specs.Prelude.{◌≡◌, ◌≤◌, take};
ghost use Rattle.grid.specs.Screen.{is_empty, trim, set_flag};
ghost use Rattle.grid.specs.Record.{rows_of, head_of, screen_of, screen_with, Leaves};
ghost use Rattle.editor.specs.Print.{wrapped, next_row, newline, put_char, print_byte, print, splits};
ghost use Rattle.editor.specs.Call.{PrintBytes, apply, last_cr};
ghost use Rattle.editor.specs.Given.{Advances, Effects};

use crate::pen::Pen;
use grid::head::Head;
use grid::layout::Record;
use grid::row::{Blank, Row};
use grid::screen::Screen;
use grid::{head, row, valid};
use octets::zero;
use values::cursor::Cursor;

// How far printing went: the pen that it hands on, and how many rows were scrolled on the way.
#[derive(Clone, Copy)]
pub struct Went {
    pub pen: Pen,
    pub scrolls: usize,
}

impl Went {
    // With no row scrolled.
    fn still(pen: Pen) -> Went
        ensures { result ≡ record { pen = pen; scrolls = 0 } }
    {
        Went { pen, scrolls: 0 }
    }
}

// How far a print went: also how many of its bytes it has taken.
#[derive(Clone, Copy)]
pub struct Run {
    pub head: Head,
    pub taken: usize,
    pub scrolls: usize,
}

// Does the row hold only spaces, w of them? All are looked at: from its end on, a blank row is the slowest.
#[tactic(auto, using(crate::proofs::PrintLaws::only_spaces), unfolding(grid::specs::Screen::is_space))]
pub fn row_is_blank(row: &Row, w: usize) -> bool
    requires { w ≤ 80 }
    ensures { result ≡ is_empty (trim (take w row.now.chars)) }
{
    zero::all_pass(&row.chars()[..w], |c| c == b' ')
}

// To the next row's column 0, scrolling on the last editable row.
pub fn next_row(rec: &mut Record, pen: Pen) -> Went
    ensures { Advances (next_row (screen_with pen.head rec.old)) rec.old rec.new result }
{
    let h = pen.head;
    let r = h.cursor.row;
    let e = head::editable_rows(h.keys);
    if r + 1 < e {
        return Went::still(pen.moved(r + 1, 0));
    }
    let blank = Blank {
        width: h.width,
        attr: h.attr,
    };
    row::scroll_up(rec, e, blank);
    Went {
        pen: pen.moved(r, 0),
        scrolls: 1,
    }
}

// Does the cursor stand in column 0 of a blank row, below a flagged one?
pub fn wrapped(rec: &Record, pen: Pen) -> bool
    ensures { result ≡ wrapped (screen_with pen.head rec.now) }
{
    let h = pen.head;
    let r = h.cursor.row;
    h.cursor.col == 0
        && 0 < r
        && Row::of(rec, r - 1).flag() == 1
        && row_is_blank(&Row::of(rec, r), h.width)
}

fn newline(rec: &mut Record, pen: Pen) -> Went
    ensures { Advances (newline (screen_with pen.head rec.old)) rec.old rec.new result }
{
    if !wrapped(rec, pen) {
        return next_row(rec, pen);
    }
    // What filled the row above has already gone to this one.
    row::set_flag(rec, pen.head.cursor.row - 1, 0);
    Went::still(pen)
}

// Flags the cursor's row, which is full, and goes to the next.
fn wrap(rec: &mut Record, pen: Pen) -> Went
    ensures { Advances (next_row (record { head = pen.head; rows = set_flag (rows_of rec.old) pen.head.cursor.row 1 })) rec.old rec.new result }
{
    row::set_flag(rec, pen.head.cursor.row, 1);
    next_row(rec, pen)
}

// The Rust first scrolls where the cursor is below the editable rows: of a valid record it never is.
fn put_print_char(rec: &mut Record, pen: Pen, ch: u8) -> Went
    ensures { Advances (put_char (screen_with pen.head rec.old) ch) rec.old rec.new result }
{
    let h = pen.head;
    let Cursor { row, col } = h.cursor;
    row::put_cell(rec, row, col, ch, h.attr);
    if col + 1 < h.width {
        return Went::still(pen.moved(row, col + 1));
    }
    wrap(rec, pen)
}

// What a byte does when it is printed.
#[derive(Clone, Copy)]
pub enum Effect {
    Newline,
    Char,
    Nothing,
}

// The effect of the byte b; cr says that the byte before it was 13. (The Rust looks ahead from 13; here 10 looks back.)
#[tactic(auto, using(crate::proofs::PrintLaws::thirteen, crate::proofs::PrintLaws::ten_alone, crate::proofs::PrintLaws::ten_after, crate::proofs::PrintLaws::char, crate::proofs::PrintLaws::ignored))]
pub fn effect_of(cr: bool, b: u8) -> Effect
    ensures { Effects cr b result }
{
    match b {
        b'\r' => Effect::Newline,
        b'\n' if cr => Effect::Nothing,
        b'\n' => Effect::Newline,
        _ if valid::is_printable(b) => Effect::Char,
        _ => Effect::Nothing,
    }
}

fn print_byte(rec: &mut Record, pen: Pen, cr: bool, b: u8) -> Went
    ensures { Advances (print_byte cr (screen_with pen.head rec.old) b) rec.old rec.new result }
{
    match effect_of(cr, b) {
        Effect::Newline => newline(rec, pen),
        Effect::Char => put_print_char(rec, pen, b),
        Effect::Nothing => Went::still(pen),
    }
}

// Prints the bytes; before says that 13 stood before them. The one loop over bytes: a function with one caller, as print_byte, is compiled into it.
pub fn print_piece(rec: &mut Record, start: Pen, before: bool, bytes: &[u8]) -> Went
    ensures { Advances (print before (screen_with start.head rec.old) bytes.now) rec.old rec.new result }
{
    let mut pen = start;
    let mut cr = before;
    let mut scrolls = 0;
    for b in bytes {
        let w = print_byte(rec, pen, cr, *b);
        // Of a head printing moves the cursor alone, and a whole head would be copied for each byte.
        let Cursor { row, col } = w.pen.head.cursor;
        pen = pen.moved(row, col);
        cr = *b == b'\r';
        scrolls += w.scrolls;
    }
    Went { pen, scrolls }
}

#[tactic(auto, unfolding(crate::specs::Call::apply, crate::specs::Call::rule))]
pub fn print_bytes(rec: &mut Record, old: &Screen, bytes: &[u8]) -> Head
    requires { rows_of rec.old ≡ old.now.rows }
    ensures { Leaves (apply (PrintBytes bytes.now) old.now) rec.old rec.new result }
{
    print_piece(rec, Pen::of(old), false, bytes).pen.head
}

// The bit that a print of bytes leaves, where the record was rec before.
// Kept so: a number and no bool, since of an empty print it hands on whatever the record holds.
pub fn cr_left(rec: &Record, bytes: &[u8]) -> u8
    ensures { result ≡ last_cr (head_of rec.now).cr bytes.now }
{
    match bytes.last() {
        Some(b) => u8::from(*b == b'\r'),
        None => head::read_head(rec).cr,
    }
}

// Do the bytes begin with 10 while the bit is set?
#[tactic(auto, using(crate::proofs::CrLaws::splits_ten, crate::proofs::CrLaws::splits_else))]
pub fn splits(rec: &Record, bytes: &[u8]) -> bool
    ensures { result ≡ splits (screen_of rec.now) bytes.now }
{
    bytes.starts_with(b"\n") && head::read_head(rec).cr == 1
}

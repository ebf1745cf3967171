// Document 02, (a): printing that waits. No scroll can be taken back: where no row is left, it is asked how many rows a byte would scroll before it is printed.
ghost use Rattle.std.specs.Prelude.{◌≡◌, ◌<◌, length};
ghost use Rattle.grid.specs.Record.{rows_of, screen_with};
ghost use Rattle.editor.specs.Print.{newline, print_byte};
ghost use Rattle.editor.specs.Given.{NextScrolls, Reaches, Waits};

use crate::pen::Pen;
use crate::print::{Effect, Run, effect_of, print_piece, wrapped};
use grid::head;
use grid::layout::Record;
use grid::screen::Screen;

// How many rows the step to the next row scrolls, none or one: it looks at the head alone.
// Kept so: a number, here and in `newline_scrolls` and `byte_scrolls`: the rule's own count of scrolls.
#[tactic(auto, using(crate::proofs::WaitingLaws::next_scrolls))]
fn next_row_scrolls(pen: Pen) -> usize
    ensures { NextScrolls pen.head result }
{
    let e = head::editable_rows(pen.head.keys);
    usize::from(pen.head.cursor.row + 1 >= e)
}

// How many rows a newline would scroll.
#[tactic(auto, using(crate::proofs::WaitingLaws::newline_stays, crate::proofs::WaitingLaws::newline_goes))]
fn newline_scrolls(rec: &Record, pen: Pen) -> usize
    ensures { result ≡ (newline (screen_with pen.head rec.now)).scrolls }
{
    if wrapped(rec, pen) {
        0
    } else {
        next_row_scrolls(pen)
    }
}

// How many rows the byte b would scroll; cr says that the byte before it was 13.
#[tactic(auto, using(crate::proofs::WaitingLaws::line_scrolls, crate::proofs::WaitingLaws::char_scrolls, crate::proofs::WaitingLaws::char_inside, crate::proofs::WaitingLaws::none_scrolls))]
fn byte_scrolls(rec: &Record, pen: Pen, cr: bool, b: u8) -> usize
    ensures { result ≡ (print_byte cr (screen_with pen.head rec.now) b).scrolls }
{
    match effect_of(cr, b) {
        Effect::Newline => newline_scrolls(rec, pen),
        Effect::Char if pen.head.cursor.col + 1 >= pen.head.width => next_row_scrolls(pen),
        _ => 0,
    }
}

// Up to which byte from i on can be printed, if so many rows may be scrolled: i if it is none.
fn piece_end(rec: &Record, pen: Pen, cr: bool, bytes: &[u8], i: usize, left: usize) -> usize
    requires { i < length bytes.now }
    ensures { Reaches cr (screen_with pen.head rec.now) bytes.now i left result }
{
    // A byte scrolls one row at most, so as many bytes as rows are left are never too many.
    if left > 0 {
        return i + left.min(bytes.len() - i);
    }
    if byte_scrolls(rec, pen, cr, bytes[i]) > 0 {
        i
    } else {
        i + 1
    }
}

// Prints up to the byte that would scroll one row more than `rows`.
// Kept so: it goes on where a piece has ended; one loop for both prints, which asks at each byte whether a row is left, takes 1.6 times as long.
pub fn print_waiting(rec: &mut Record, old: &Screen, bytes: &[u8], rows: usize) -> Run
    requires { rows_of rec.old ≡ old.now.rows }
    ensures { Waits bytes.now rows old.now rec.old rec.new result }
{
    let mut pen = Pen::of(old);
    let mut cr = false;
    let mut scrolls = 0;
    let mut i = 0;
    while i < bytes.len() {
        let to = piece_end(rec, pen, cr, bytes, i, rows - scrolls);
        if to == i {
            return Run {
                head: pen.head,
                taken: i,
                scrolls,
            };
        }
        let w = print_piece(rec, pen, cr, &bytes[i..to]);
        pen = w.pen;
        scrolls += w.scrolls;
        cr = bytes[to - 1] == b'\r';
        i = to;
    }
    Run {
        head: pen.head,
        taken: i,
        scrolls,
    }
}

// The text of the whole screen.
ghost use Rattle.std.specs.Prelude.{not, ◌≡◌, ◌+◌, ◌*◌, ◌≤◌, ◌<◌, [], ◌∷◌, ◌++◌, length, take, MatchOption};
ghost use Rattle.grid.specs.Screen.{is_empty, row_at};
ghost use Rattle.octets.specs.Answer.{wrote, Writes};
ghost use Rattle.editor.specs.Text.{is_white, snapshot};
ghost use Rattle.moves.specs.Shown.{shown, lines, Shows, Filled, Puts};

use grid::row::Row;
use grid::screen::Screen;
use grid::{head, row};
use octets::part;

// White space to Rust's `trim_end`.
#[tactic(auto, unfolding(editor::specs::Text::is_white))]
fn is_white(c: u8) -> bool
    ensures { result ≡ is_white c }
{
    matches!(c, b' ' | 133 | 160)
}

// The length of what a row shows, of w columns.
fn shown_length(row: &Row, w: usize) -> usize
    requires { w ≤ 80 }
    ensures { Shows w row.now result }
{
    row::length_without(&row.chars()[..w], is_white)
}

// Does the row r show a character?
#[tactic(auto, using(crate::proofs::TextLaws::row_shows))]
fn shows(s: &Screen, r: usize) -> bool
    requires { r < 25 }
    ensures { result ≡ not (is_empty (shown s.now.head.width (row_at s.now.rows r))) }
{
    shown_length(&Row::of(s.rec, r), s.head.width) > 0
}

// The last row that shows a character, of the first e.
fn last_row(s: &Screen, e: usize) -> Option<usize>
    requires { e ≤ 25 }
    ensures { MatchOption result (Filled s.now.head.width s.now.rows e 0) (λ r. Filled s.now.head.width s.now.rows e (r + 1)) }
{
    (0..e).rev().find(|&r| shows(s, r))
}

// Writes what a row shows, and answers its length.
#[tactic(auto, using(crate::proofs::TextLaws::row_put))]
fn put_row(out: &mut [u8], row: &Row, w: usize) -> usize
    requires { (w ≤ 80) × (80 ≤ length out.old) }
    ensures { Puts (shown w row.now) 80 out.old out.new result }
{
    let n = shown_length(row, w);
    part::copy_in(out, 0, &row.chars()[..n]);
    n
}

// The same, with byte 10 behind it.
fn put_line(out: &mut [u8], row: &Row, w: usize) -> usize
    requires { (w ≤ 80) × (81 ≤ length out.old) }
    ensures { Puts (shown w row.now ++ (10 ∷ [])) 81 out.old out.new result }
{
    let n = put_row(out, row, w);
    out[n] = 10;
    n + 1
}

// Writes what the first n rows show, with byte 10 behind each.
// Kept so: a place that goes on, since the texts have unlike lengths.
fn put_lines(out: &mut [u8], s: &Screen, n: usize) -> usize
    requires { (n < 25) × (2024 ≤ length out.old) }
    ensures { Puts (lines s.now.head.width (take n s.now.rows)) (81 * n) out.old out.new result }
{
    let mut at = 0;
    for r in 0..n {
        at += put_line(&mut out[at..], &Row::of(s.rec, r), s.head.width);
    }
    at
}

#[tactic(auto, using(crate::proofs::TextLaws::shot_none, crate::proofs::TextLaws::shot_done))]
pub fn snapshot(s: &Screen, out: &mut [u8]) -> usize
    requires { 2024 ≤ length out.old }
    ensures { Writes (wrote (snapshot s.now) out.old) result out.new }
{
    let Some(last) = last_row(s, head::editable_rows(s.head.keys)) else {
        return 0;
    };
    let at = put_lines(out, s, last);
    at + put_row(&mut out[at..], &Row::of(s.rec, last), s.head.width)
}

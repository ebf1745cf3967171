// Words: `word_left` and `word_right` go over all editable cells, which are counted row by row, as in the Rust.
ghost use Rattle.std.specs.Prelude.{◌≡◌, ◌-◌, ◌*◌, ◌≤◌, ◌<◌};
ghost use Rattle.grid.specs.Screen.{with_cursor};
ghost use Rattle.grid.specs.Record.{Moves};
ghost use Rattle.moves.specs.Cells.{Flat, Cells};
ghost use Rattle.editor.specs.Words.{is_word, word_at, place, back_to_word, word_start, past_word, past_gap};
ghost use Rattle.editor.specs.Call.{WordLeft, WordRight, apply};

use grid::head;
use grid::head::Head;
use grid::row::Row;
use grid::screen::Screen;
use values::cursor::Cursor;

// The screen's own test, and not that of the tokens.
#[tactic(auto, using(crate::proofs::WordsLaws::word_is))]
fn is_word(c: u8) -> bool
    ensures { result ≡ is_word c }
{
    c.is_ascii_alphanumeric()
}

// The cell under the cursor.
#[tactic(auto, using(crate::proofs::WordsLaws::rows_most, crate::proofs::WordsLaws::cells_to))]
fn flat_index(s: &Screen) -> usize
    ensures { Flat s.now.head result }
{
    let h = s.head;
    h.cursor.row * h.width + h.cursor.col
}

#[tactic(auto, using(crate::proofs::WordsLaws::rows_most, crate::proofs::WordsLaws::cells_to))]
fn cells(s: &Screen) -> usize
    ensures { Cells s.now.head result }
{
    let h = s.head;
    head::editable_rows(h.keys) * h.width
}

// The screen's head with the cursor at the cell i.
#[tactic(auto, unfolding(editor::specs::Words::place))]
fn set_flat(s: &Screen, i: usize) -> Head
    ensures { result ≡ with_cursor s.now.head (place s.now.head.width i) }
{
    let h = s.head;
    h.with_cursor(Cursor::new(i / h.width, i % h.width))
}

// Is the cell i of a word?
// Kept so: that a cell is below 25 × width stands here and at the four functions below, and is no type: the cell is a number that is made anew at each step.
#[tactic(auto, using(crate::proofs::WordsLaws::cell_row, crate::proofs::WordsLaws::cell_col, crate::proofs::WordsLaws::word_read))]
fn word_at(s: &Screen, i: usize) -> bool
    requires { i < 25 * s.now.head.width }
    ensures { result ≡ word_at s.now i }
{
    let w = s.head.width;
    is_word(Row::of(s.rec, i / w).char_at(i % w))
}

// Back from the cell at over cells outside words.
// Kept so: this and `word_start` are nearly alike, and `past_word` and `past_gap` but for a `!`: they are four rules of the document, each a chain of one line.
fn back_to_word(s: &Screen, at: usize) -> usize
    requires { at < 25 * s.now.head.width }
    ensures { result ≡ back_to_word s.now at }
{
    (0..at)
        .rev()
        .find(|&i| word_at(s, i + 1))
        .map_or(0, |i| i + 1)
}

// Back from the cell at to that word's start.
fn word_start(s: &Screen, at: usize) -> usize
    requires { at < 25 * s.now.head.width }
    ensures { result ≡ word_start s.now at }
{
    (0..at).rev().find(|&i| !word_at(s, i)).map_or(0, |i| i + 1)
}

// From the cell at past the word it is in, of max cells.
fn past_word(s: &Screen, max: usize, at: usize) -> usize
    requires { (at ≤ max) × (max ≤ 25 * s.now.head.width) }
    ensures { result ≡ past_word s.now (max - at) at }
{
    (at..max).find(|&i| !word_at(s, i)).unwrap_or(max)
}

// From the cell at past cells outside words, of max cells.
fn past_gap(s: &Screen, max: usize, at: usize) -> usize
    requires { (at ≤ max) × (max ≤ 25 * s.now.head.width) }
    ensures { result ≡ past_gap s.now (max - at) at }
{
    (at..max).find(|&i| word_at(s, i)).unwrap_or(max)
}

#[tactic(auto, using(crate::proofs::WordsLaws::left_inside, crate::proofs::WordsLaws::cell_is), unfolding(editor::specs::Call::apply, editor::specs::Call::rule, editor::specs::Words::word_left, grid::specs::Screen::move_to))]
pub fn word_left(s: &Screen) -> Head
    ensures { Moves (apply WordLeft s.now) s.now result }
{
    let i = flat_index(s);
    if i == 0 {
        return s.head;
    }
    let j = back_to_word(s, i - 1);
    set_flat(s, word_start(s, j))
}

#[tactic(auto, using(crate::proofs::WordsLaws::right_inside, crate::proofs::WordsLaws::cell_is), unfolding(editor::specs::Call::apply, editor::specs::Call::rule, editor::specs::Words::word_right, grid::specs::Screen::move_to))]
pub fn word_right(s: &Screen) -> Head
    ensures { Moves (apply WordRight s.now) s.now result }
{
    let max = cells(s);
    let i = past_word(s, max, flat_index(s));
    let j = past_gap(s, max, i);
    set_flat(s, j.min(max - 1))
}

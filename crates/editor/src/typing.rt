// The typing keys: each takes the editing content, changes it and splices it in again.
ghost use Rattle.std.specs.Prelude.{if◌then◌else◌, ◌≡◌, ◌-◌, ◌≤◌, ◌<◌, eqb};
ghost use Rattle.grid.specs.Record.{rows_of, Leaves};
ghost use Rattle.line.specs.Line.{MAX-LOGICAL, content, index};
ghost use Rattle.line.specs.Splice.{splice};
ghost use Rattle.line.specs.Text.{text_of};
ghost use Rattle.editor.specs.Typing.{type_within};
ghost use Rattle.editor.specs.Call.{TypeLimited, Backspace, DeleteChar, EraseToEnd, apply};
ghost use Rattle.editor.specs.Given.{without};

use grid::head::Head;
use grid::layout::Record;
use grid::screen::Screen;
use line::content::content_and_cursor;
use line::logical::Line;
use line::splice::splice_logical;
use line::text::Text;
use std::marker::Model;

// The line under the cursor while it is edited, with its characters.
#[derive(Drop)]
struct Edited<'a> {
    line: Line<'a>,
    text: Text,
}

impl<'a> Model for Edited<'a> {
    ghost use Rattle.grid.specs.Screen.{Screen};
    ghost use Rattle.line.specs.Line.{content, index};
    ghost use Rattle.line.specs.Text.{Holds};

    ghost Value = { Screen };

    ghost view = { λ x. x.line };

    ghost invariant = { λ x. Holds x.text (content x.line) (index x.line) };
}

impl<'a> Edited<'a> {
    fn under_cursor(screen: &'a Screen<'a>) -> Edited<'a>
        ensures { result ≡ screen.now }
    {
        let line = Line::under_cursor(screen);
        let text = content_and_cursor(&line);
        Edited { line, text }
    }

    // Puts another text in its place.
    fn spliced(&self, rec: &mut Record, text: Text) -> Head
        requires { rows_of rec.old ≡ self.now.rows }
        ensures { Leaves (splice self.now (text_of text) text.index) rec.old rec.new result }
    {
        splice_logical(rec, &self.line, text)
    }

    // Takes the character at an index out, if it has one there.
    #[tactic(auto, using(crate::proofs::TypingLaws::without_none))]
    fn without(&self, rec: &mut Record, at: usize) -> Head
        requires { rows_of rec.old ≡ self.now.rows }
        ensures { Leaves (without self.now (content self.now) at) rec.old rec.new result }
    {
        if at >= self.text.len {
            return self.line.head();
        }
        self.spliced(rec, self.text.removed(at))
    }
}

// ch in the line: inserted, over the character that stands at the cursor, or behind the last one.
fn type_within(rec: &mut Record, edited: &Edited, ch: u8, limit: usize) -> Head
    requires { (rows_of rec.old ≡ edited.now.rows) × (limit ≤ MAX-LOGICAL) }
    ensures { Leaves (type_within limit edited.now (content edited.now) (index edited.now) ch) rec.old rec.new result }
{
    let t = edited.text;
    let h = edited.line.head();
    let full = t.len >= limit;
    if h.insert == 1 {
        if full {
            return h;
        }
        return edited.spliced(rec, t.inserted(ch));
    }
    let over = t.index < t.len;
    if over {
        return edited.spliced(rec, t.replaced(ch));
    }
    if full {
        return h;
    }
    edited.spliced(rec, t.extended(ch))
}

pub fn type_limited(rec: &mut Record, old: &Screen, ch: u8, limit: usize) -> Head
    requires { (rows_of rec.old ≡ old.now.rows) × (limit ≤ MAX-LOGICAL) }
    ensures { Leaves (apply (TypeLimited ch limit) old.now) rec.old rec.new result }
{
    if !grid::valid::is_printable(ch) {
        return old.head;
    }
    type_within(rec, &Edited::under_cursor(old), ch, limit)
}

pub fn delete_char(rec: &mut Record, old: &Screen) -> Head
    requires { rows_of rec.old ≡ old.now.rows }
    ensures { Leaves (apply DeleteChar old.now) rec.old rec.new result }
{
    let edited = Edited::under_cursor(old);
    edited.without(rec, edited.text.index)
}

// The index of what backspace deletes: the character before the cursor, at the left edge the one under it. (The Rust calls `delete_char` there; here only the
// index differs.)
fn backspace_index(col: usize, i: usize) -> usize
    requires { 0 < col → 1 ≤ i }
    ensures { result ≡ (if eqb col 0 then i else i - 1) }
{
    if 0 < col { i - 1 } else { i }
}

pub fn backspace(rec: &mut Record, old: &Screen) -> Head
    requires { rows_of rec.old ≡ old.now.rows }
    ensures { Leaves (apply Backspace old.now) rec.old rec.new result }
{
    let edited = Edited::under_cursor(old);
    let at = backspace_index(old.head.cursor.col, edited.text.index);
    edited.without(rec, at)
}

#[tactic(auto, unfolding(crate::specs::Call::apply, crate::specs::Call::rule, crate::specs::Typing::erase_to_end))]
pub fn erase_to_end(rec: &mut Record, old: &Screen) -> Head
    requires { rows_of rec.old ≡ old.now.rows }
    ensures { Leaves (apply EraseToEnd old.now) rec.old rec.new result }
{
    let edited = Edited::under_cursor(old);
    edited.spliced(rec, edited.text.cut())
}

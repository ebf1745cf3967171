// The calls that hand out a text in a lent output: the text is written to its front, later bytes stay.
ghost use Rattle.octets.specs.Answer.{Writes, answered};
ghost use Rattle.editor.specs.Outcome.{texting, LogicalText, Snapshot};

use editor::lines;
use grid::refusal::record;
use grid::screen::Screen;
use line::reading::put_reading;
use line::text::MAX_LOGICAL;
use moves::text;
use octets::answer::Refusal;

// 25 rows of 80 characters, and a byte between each two.
const MOST_SHOWN: usize = 2024;

pub fn logical_text(rec: &[u8], out: &mut [u8]) -> Result<u32, Refusal>
    ensures { Writes (texting LogicalText rec.now out.old) (answered result) out.new }
{
    let s = Screen::of(record(rec, out.len() >= MAX_LOGICAL)?);
    Ok(put_reading(out, lines::line_text(&s)))
}

pub fn snapshot(rec: &[u8], out: &mut [u8]) -> Result<u32, Refusal>
    ensures { Writes (texting Snapshot rec.now out.old) (answered result) out.new }
{
    let s = Screen::of(record(rec, out.len() >= MOST_SHOWN)?);
    // Kept so: a cast, since no `From` leads from usize to u32, and `try_from` would have a case that never comes.
    Ok(text::snapshot(&s, out) as u32)
}

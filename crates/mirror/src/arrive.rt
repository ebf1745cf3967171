// A report arrives at a mirror.
ghost use Rattle.std.specs.Prelude.{◌≡◌, not, ◌&&◌, eqb, length, drop, map};
ghost use Rattle.std.specs.Int.Count.{ones};
ghost use Rattle.octets.specs.Answer.{Writes, answered};
ghost use Rattle.grid.specs.Record.{head_of, rows_of, read_state, state_bytes, Becomes};
ghost use Rattle.report.specs.Layout.{ALL-ROWS};
ghost use Rattle.report.specs.Carried.{bits, merge};
ghost use Rattle.report.specs.Report.{read_front, row_in, read_report};
ghost use Rattle.report.specs.Refusals.{ValidReport};
ghost use Rattle.mirror.specs.Layout.{RECORD};
ghost use Rattle.mirror.specs.Mirror.{shown, arrival};
ghost use Rattle.mirror.specs.Parts.{Hears};

use crate::layout::{MirrorRecord, NEWEST};
use crate::{mirror, order};
use grid::head::Stamp;
use grid::layout::{Record, SCREEN_ROWS};
use grid::pair::Pair;
use grid::{head, pair, row};
use octets::answer::Refusal;
use report::check;
use report::front::Front;
use report::layout::{ALL_ROWS, ROW_SIZE};
use report::row::row_in;
use values::mask;

// Replaces the rows of the mask by the carried ones, of which there are as many.
// Kept so: n goes on only at a row of the mask, so that no two of one length go beside each other.
fn take_rows(rec: &mut Record, carried: &[[u8; ROW_SIZE]], mask: u32)
    requires { length carried.now ≡ ones mask }
    ensures { Becomes rec.old rec.new (merge (bits 25 mask) (map (λ row. row_in row 0) carried.now) (rows_of rec.old)) }
{
    let mut n = 0;
    for r in 0..SCREEN_ROWS {
        if mask::has_row(mask, r) {
            row::put_row(rec, r, &row_in(&carried[n]));
            n += 1;
        }
    }
}

// Makes the record that of the screen which the report of the front f leads to.
#[tactic(auto, using(crate::proofs::ArriveRows::start_known, crate::proofs::ArriveRows::many_known, crate::proofs::ArriveRows::front_known))]
fn show(rec: &mut Record, report: &[u8], f: Front)
    requires { ValidReport report.now × (f ≡ read_front report.now) }
    ensures { rec.new ≡ state_bytes (shown (read_report report.now) (read_state rec.old)) }
{
    let (carried, _) = report[f.kind.rows_at()..].as_chunks();
    take_rows(rec, carried, f.mask);
    head::write_front(
        rec,
        f.head,
        Stamp {
            pair: f.pair,
            touched: 0,
        },
    );
}

// Does a report of the front f change the width without carrying all 25 rows?
fn width_without_rows(mir: &MirrorRecord, f: Front) -> bool
    ensures { result ≡ not (eqb f.head.width (head_of (drop RECORD mir.now)).width) && not (eqb f.mask ALL-ROWS) }
{
    f.head.width != head::read_head(mirror::record(mir)).width && f.mask != ALL_ROWS
}

// Raises the newest pair to p, if that is later, and answers 1 if it is then the one shown, else 0.
// Kept so: a number, since it is the level that the call answers.
fn hear(mir: &mut MirrorRecord, p: Pair, shown: Pair) -> u32
    ensures { Hears p shown mir.old mir.new result }
{
    let newest = pair::pair_at(mir, NEWEST).max(p);
    mirror::write_front(mir, newest);
    u32::from(shown == newest)
}

fn arrive(mir: &mut MirrorRecord, report: &[u8]) -> Result<u32, Refusal>
    ensures { Writes (arrival mir.old report.now) (answered result) mir.new }
{
    if !mirror::mirror_ok(mir) {
        return Err(Refusal::BrokenLayout);
    }
    let f = check::report(report).ok_or(Refusal::BrokenReport)?;
    let shown = head::read_pair(mirror::record(mir));
    if !order::due(f, shown) {
        // Old, early or of another sitting: only the newest pair can change.
        return Ok(hear(mir, f.pair, shown));
    }
    if width_without_rows(mir, f) {
        return Err(Refusal::WidthWithoutRows);
    }
    show(mir.last_chunk_mut().unwrap(), report, f);
    Ok(hear(mir, f.pair, f.pair))
}

// Answers 1 if the mirror is then level, else 0.
#[tactic(auto, using(crate::proofs::ArriveLeft::size_refused))]
pub fn mirror_arrive(mir: &mut [u8], report: &[u8]) -> Result<u32, Refusal>
    ensures { Writes (arrival mir.old report.now) (answered result) mir.new }
{
    let mir = mir.as_mut_array().ok_or(Refusal::WrongLength)?;
    arrive(mir, report)
}

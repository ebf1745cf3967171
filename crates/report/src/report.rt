// The report calls: a report of a record, written to a lent output.
ghost use Rattle.std.specs.Prelude.{◌≡◌, ◌*◌, ◌≤◌, length};
ghost use Rattle.octets.specs.Answer.{Writes, answered, over};
ghost use Rattle.grid.specs.Record.{rows_of};
ghost use Rattle.report.specs.Layout.{ROW-SIZE};
ghost use Rattle.report.specs.declared.kind.Kind.TheVariants.{Step, Full};
ghost use Rattle.report.specs.Report.{carried_bytes, reporting};
ghost use Rattle.report.specs.Carried.{carry, bits};

use crate::front::Front;
use crate::kind::Kind;
use crate::layout::{LONGEST, ROW_SIZE};
use crate::row::write_row;
use grid::layout::{Record, SCREEN_ROWS};
use grid::refusal::record;
use grid::row::Row;
use octets::answer::Refusal;
use values::mask;

// Writes the rows of the mask, lowest first.
// Kept so: the place goes on only at a row of the mask, so that no two of one length go beside each other.
fn carry_rows(out: &mut [u8], rec: &Record, mask: u32)
    requires { ROW-SIZE * 25 ≤ length out.old }
    ensures { out.new ≡ over (carried_bytes (carry (bits 25 mask) (rows_of rec.now))) out.old }
{
    let mut at = 0;
    for r in 0..SCREEN_ROWS {
        if mask::has_row(mask, r) {
            write_row(&mut out[at..at + ROW_SIZE], &Row::of(rec, r));
            at += ROW_SIZE;
        }
    }
}

#[tactic(auto, using(crate::proofs::ReportLaws::report_refused, crate::proofs::ReportLaws::report_room, crate::proofs::ReportLaws::rows_room, crate::proofs::ReportLaws::length_small))]
fn report(rec: &[u8], out: &mut [u8], kind: Kind) -> Result<u32, Refusal>
    ensures { Writes (reporting kind rec.now out.old) (answered result) out.new }
{
    let rec = record(rec, out.len() >= LONGEST)?;
    let f = Front::of(rec, kind);
    f.write(out);
    carry_rows(&mut out[f.kind.rows_at()..], rec, f.mask);
    // Kept so: a cast, since no `From` leads from usize to u32, and `try_from` would have a case that never comes.
    Ok(f.report_length() as u32)
}

// The rows that the last call touched.
// Kept so: this and `report_full` are two names of one call, as C has them.
pub fn report_step(rec: &[u8], out: &mut [u8]) -> Result<u32, Refusal>
    ensures { Writes (reporting Step rec.now out.old) (answered result) out.new }
{
    report(rec, out, Kind::Step)
}

// All 25 rows.
pub fn report_full(rec: &[u8], out: &mut [u8]) -> Result<u32, Refusal>
    ensures { Writes (reporting Full rec.now out.old) (answered result) out.new }
{
    report(rec, out, Kind::Full)
}

// The test of an arriving slice, whatever it holds.
ghost use Rattle.std.specs.Prelude.{◌≡◌, ◌≤◌, SomeIff, IsTrue, length, get_or};
ghost use Rattle.std.specs.List.{list_all};
ghost use Rattle.grid.specs.Screen.{valid_row};
ghost use Rattle.report.specs.Layout.{KIND, ROWS};
ghost use Rattle.report.specs.Kind.{kind_byte};
ghost use Rattle.report.specs.Report.{read_front, row_in, frontb, reportb};

use crate::front::Front;
use crate::layout::{REPORT_VERSION, ROW_SIZE};
use crate::row::row_in;
use grid::valid;
use octets::number::two_at;

// Is the front f of the slice, whose kind is the one told, as the layout asks?
#[tactic(auto, using(crate::proofs::CheckLaws::front_told))]
fn front_ok(b: &[u8], f: Front) -> bool
    requires { (ROWS ≤ length b.now) × (f ≡ read_front b.now) × (get_or b.now KIND 0 ≡ kind_byte f.kind) }
    ensures { result ≡ frontb b.now }
{
    b.len() == f.report_length()
        && two_at(b, 0) == b.len()
        && b[2] == REPORT_VERSION
        && f.kind.mask_ok(f.mask)
}

// Are all rows of W columns?
// Kept so: beside that of `grid`, since this one goes over the arrays of a report, and that one over the numbers of a record's rows.
fn rows_ok<const W: usize>(rows: &[[u8; ROW_SIZE]]) -> bool
    requires { W ≤ 80 }
    ensures { result ≡ list_all (λ row. valid_row W (row_in row 0)) rows.now }
{
    rows.iter().all(
        |row| -> bool
            requires { W ≤ 80 }
            ensures { result ≡ valid_row W (row_in row.entry.now 0) }
        { valid::row_ok::<W>(&row_in(row)) },
    )
}

// The front of the slice, if it is a report as the layout asks. Its rows are judged by its own width.
#[tactic(auto, using(crate::proofs::KindLaws::rows_at_kind, crate::proofs::CheckLaws::told, crate::proofs::CheckLaws::front_passes, crate::proofs::CheckLaws::head_passes, crate::proofs::CheckLaws::found, crate::proofs::CheckLaws::other_width))]
pub fn report(b: &[u8]) -> Option<Front>
    ensures { SomeIff result (IsTrue (reportb b.now)) (read_front b.now) }
{
    let f = Front::read(b)?;
    if !front_ok(b, f) || !valid::head_ok(f.head) {
        return None;
    }
    let (rows, _) = b[f.kind.rows_at()..].as_chunks();
    let fit = if f.head.width == 40 {
        rows_ok::<40>(rows)
    } else {
        rows_ok::<80>(rows)
    };
    fit.then_some(f)
}

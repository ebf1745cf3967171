// A row as a report carries it: flag, characters, attributes.
ghost use Rattle.std.specs.Prelude.{◌≡◌, length};
ghost use Rattle.report.specs.Layout.{ROW-SIZE};
ghost use Rattle.report.specs.Report.{row_bytes, row_in};

use crate::layout::ROW_SIZE;
use grid::layout::STRIDE;
use grid::row::Row;
use octets::part;

// The row of the bytes.
pub fn row_in(b: &[u8; ROW_SIZE]) -> Row
    ensures { result ≡ row_in b.now 0 }
{
    Row::new(
        b[0],
        b[1..].first_chunk().unwrap(),
        b[1 + STRIDE..].first_chunk().unwrap(),
    )
}

// Writes the bytes of the row.
pub fn write_row(out: &mut [u8], row: &Row)
    requires { length out.old ≡ ROW-SIZE }
    ensures { out.new ≡ row_bytes row.now }
{
    out[0] = row.flag();
    part::copy_in(out, 1, row.chars());
    part::copy_in(out, 1 + STRIDE, row.attrs());
}

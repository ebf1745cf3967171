// The front of a report: what stands before its rows.
ghost use Rattle.std.specs.Prelude.{◌≡◌, ◌++◌, ◌≤◌, SomeIff, length, get_or, drop};
ghost use Rattle.std.specs.Int.Count.{ones};
ghost use Rattle.grid.specs.Facts.{HeadFits, Valid};
ghost use Rattle.report.specs.Layout.{KIND, ROWS, LONGEST};
ghost use Rattle.report.specs.Kind.{kind_byte, rows_at, report_length};
ghost use Rattle.report.specs.Report.{report_front, read_front};
ghost use Rattle.report.specs.Parts.{Fronts};

use crate::kind;
use crate::kind::Kind;
use crate::layout::{HEAD, KIND, MASK, REPORT_PAIR, REPORT_VERSION, ROW_SIZE, ROWS};
use grid::head::Head;
use grid::layout::Record;
use grid::pair::Pair;
use grid::{head, pair};
use octets::number;

#[derive(Clone, Copy)]
pub struct Front {
    pub kind: Kind,
    pub pair: Pair,
    pub mask: u32,
    pub head: Head,
}

// The front of a slice, whatever the byte of the kind; `Front::read` tells whether it is the byte of one.
#[tactic(auto, unfolding(crate::specs::Report::read_front))]
pub fn read_front(b: &[u8]) -> Front
    requires { ROWS ≤ length b.now }
    ensures { result ≡ read_front b.now }
{
    Front {
        kind: kind::kind_of(b[KIND]),
        pair: pair::pair_at(b, REPORT_PAIR),
        mask: number::four_at(b, MASK),
        head: head::head_at(b, HEAD),
    }
}

impl Front {
    // The front of a report of a record.
    pub fn of(rec: &Record, kind: Kind) -> Front
        requires { Valid rec.now }
        ensures { Fronts kind rec.now result }
    {
        let stamp = head::read_stamp(rec);
        Front {
            kind,
            pair: stamp.pair,
            mask: kind.mask_of(stamp.touched),
            head: head::read_head(rec),
        }
    }

    // That of a slice, if it is long enough and the byte of the kind is that of one.
    #[tactic(auto, unfolding(crate::specs::Report::read_front))]
    pub fn read(b: &[u8]) -> Option<Front>
        ensures { SomeIff result ((ROWS ≤ length b.now) × (get_or b.now KIND 0 ≡ kind_byte (read_front b.now).kind)) (read_front b.now) }
    {
        if b.len() < ROWS || Kind::try_from(b[KIND]).is_err() {
            return None;
        }
        Some(read_front(b))
    }

    // How many rows follow it: one for each in the mask.
    // Kept so: no `From` leads from u32 to usize or back, and the proof has it that the number fits.
    pub fn rows(self) -> usize
        ensures { (result ≡ ones self.mask) × (result ≤ 32) }
    {
        self.mask.count_ones() as usize
    }

    // How long the whole report is: where a report is made, and where one is checked.
    #[tactic(auto, using(crate::proofs::KindLaws::rows_at_kind))]
    pub fn report_length(self) -> usize
        ensures { result ≡ report_length self.kind self.mask }
    {
        self.kind.rows_at() + ROW_SIZE * self.rows()
    }

    #[tactic(auto, using(crate::proofs::FrontLaws::fronted))]
    pub fn write(self, out: &mut [u8])
        requires { (LONGEST ≤ length out.old) × HeadFits self.head }
        ensures { out.new ≡ report_front self ++ drop (rows_at self.kind) out.old }
    {
        pair::put_pair(out, REPORT_PAIR, self.pair);
        number::put4(out, MASK, self.mask);
        head::put_head(out, HEAD, self.head);
        number::put2(out, 0, self.report_length());
        out[2] = REPORT_VERSION;
        out[KIND] = u8::from(self.kind);
    }
}

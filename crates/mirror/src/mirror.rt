// The mirror: its layout tested, and a new one made.
ghost use Rattle.std.specs.Prelude.{◌≡◌, ◌++◌, drop};
ghost use Rattle.octets.specs.Answer.{Writes, done};
ghost use Rattle.mirror.specs.Layout.{RECORD};
ghost use Rattle.mirror.specs.Mirror.{mirror_front, mirror_frontb, shownb, mirrorb, creating_mirror};

use crate::layout::{MIRROR_SIZE, MIRROR_VERSION, MirrorRecord, NEWEST};
use grid::layout::Record;
use grid::pair::Pair;
use grid::{head, pair};
use octets::answer::Refusal;
use octets::number;

// The record of the screen shown.
pub fn record(mir: &MirrorRecord) -> &Record
    ensures { result.now ≡ drop RECORD mir.now }
{
    mir.last_chunk().unwrap()
}

#[tactic(auto, using(crate::proofs::MirrorLaws::front_tested))]
fn front_ok(mir: &MirrorRecord) -> bool
    ensures { result ≡ mirror_frontb mir.now }
{
    number::two_at(mir, 0) == MIRROR_SIZE && mir[2] == MIRROR_VERSION
}

// Is the record valid, with nothing touched, and of a pair that is not later than the newest?
#[tactic(auto, using(crate::proofs::OrderLaws::le_is), unfolding(crate::specs::Mirror::shownb))]
fn shown_ok(mir: &MirrorRecord) -> bool
    ensures { result ≡ shownb mir.now }
{
    let newest = pair::pair_at(mir, NEWEST);
    let rec = record(mir);
    grid::valid::valid(rec) && head::read_touched(rec) == 0 && head::read_pair(rec) <= newest
}

// Is the slice a mirror as the layout asks?
#[tactic(auto, using(crate::proofs::MirrorLaws::length_bad, crate::proofs::MirrorLaws::mirror_tests))]
pub fn mirror_ok(mir: &[u8]) -> bool
    ensures { result ≡ mirrorb mir.now }
{
    let Some(mir) = mir.as_array() else {
        return false;
    };
    front_ok(mir) && shown_ok(mir)
}

// Writes what stands before the record.
#[tactic(auto, using(crate::proofs::MirrorLaws::mirror_fronted))]
pub fn write_front(mir: &mut MirrorRecord, newest: Pair)
    ensures { mir.new ≡ mirror_front newest ++ drop RECORD mir.old }
{
    pair::put_pair(mir, NEWEST, newest);
    number::put2(mir, 0, MIRROR_SIZE);
    mir[2] = MIRROR_VERSION;
}

// Takes any width and any sitting, and does not read the old bytes.
#[tactic(auto, using(crate::proofs::MirrorLaws::new_mirror_refused))]
pub fn mirror_new(mir: &mut [u8], width: u32, sitting: u32) -> Result<(), Refusal>
    ensures { Writes (creating_mirror width sitting mir.old) (done result) mir.new }
{
    let mir = mir.as_mut_array().ok_or(Refusal::WrongLength)?;
    grid::fresh::new_screen(mir.last_chunk_mut().unwrap(), width, sitting);
    write_front(mir, Pair { sitting, serial: 0 });
    Ok(())
}

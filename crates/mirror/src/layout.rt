// Where the fields of a mirror stand, how long it is, and its version: the one place of the code that names them.
// `specs/Layout.antt` has the same names.
use grid::layout::SIZE;

pub const MIRROR_SIZE: usize = 4057;

pub const MIRROR_VERSION: u8 = 2;

// The newest serial and sitting.
pub const NEWEST: usize = 3;

// A screen record, to the end.
pub const RECORD: usize = 11;

const _: () = prove!(RECORD + SIZE == MIRROR_SIZE);

pub type MirrorRecord = [u8; MIRROR_SIZE];

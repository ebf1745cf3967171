// Where the fields of a report stand, how long it is, and its version: the one place of the code that names them.
// `specs/Layout.antt` has the same names.
pub const REPORT_VERSION: u8 = 2;

pub const KIND: usize = 3;

// Serial and sitting.
pub const REPORT_PAIR: usize = 4;

pub const MASK: usize = 12;
// The record's bytes 3 to 8.
pub const HEAD: usize = 16;

pub const ROWS: usize = 22;
// The bytes of a row: flag, 80 characters, 80 attributes.
pub const ROW_SIZE: usize = 161;
// The longest report, with all 25 rows: the shortest output that is taken.
pub const LONGEST: usize = 4047;

pub const STEP: u8 = 1;

pub const FULL: u8 = 2;
// The mask of all 25 rows.
pub const ALL_ROWS: u32 = 33554431;

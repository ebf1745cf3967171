// Where the fields of a screen record stand, how long it is, and its version: the one place of the code that names them.
// `specs/Layout.antt` has the same names.
pub const SCREEN_ROWS: usize = 25;
// A row's cells stand 80 apart at either width.
pub const STRIDE: usize = 80;

pub const SIZE: usize = 4046;

pub type Record = [u8; SIZE];

pub const VERSION: u8 = 2;

// Width, cursor row, cursor column, insert and cr, keys on, attribute.
pub const HEAD: usize = 3;

// Serial and sitting.
pub const PAIR: usize = 9;

pub const TOUCHED: usize = 17;

pub const FLAGS: usize = 21;

pub const CHARS: usize = 46;

pub const ATTRS: usize = 2046;

// Masks of 25 rows are below it.
pub const MASKS: u32 = 33554432;

// The layout of an edge in the pass list: its size, where its fields stand, and the bits of its map. The definitions are in specs/Layout.antt.
// How many bytes an edge has.
pub const SIZE: usize = 56;

// Where its fields stand behind its start place, which is the first.
pub const END_AT: usize = 2;

pub const KIND_AT: usize = 4;

pub const MAP_AT: usize = 6;

pub const VALUE_AT: usize = 8;

pub const BASE_AT: usize = 16;

pub const MULT_AT: usize = 24;

pub const RECORD_AT: usize = 32;

pub const SCRIPT_AT: usize = 40;

pub const SCRIPT_LEN_AT: usize = 48;

// The bits of its map: the listing's for the fields, and more for the marks and the decimals.
pub const HAS_VALUE: u16 = 2;

pub const HAS_BASE: u16 = 8;

pub const HAS_MULT: u16 = 16;

pub const HAS_SCRIPT: u16 = 32;

pub const LARGE_POWER: u16 = 64;

pub const DIGIT: u16 = 256;

pub const GAP: u16 = 512;

pub const CJK: u16 = 1024;

// Four bits.
pub const DECIMALS: u16 = 2048;

pub const POINT: u16 = 32768;

// The bits of an edge's map in a listing (01, "Listing"): each by what it is worth. specs/Layout.antt counts them from 0, as 01 does.
pub const NUMERIC: u16 = 1;

pub const VALUE: u16 = 2;

pub const FRACTION: u16 = 4;

pub const BASE: u16 = 8;

pub const MULT: u16 = 16;

pub const SCRIPT: u16 = 32;

pub const LARGE_POWER: u16 = 64;

pub const ACTIVE: u16 = 128;

pub const VALUE_S: u16 = 256;

// 02, S-13
pub const DECIMALS: u16 = 512;

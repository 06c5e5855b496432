// The bits of a record's map in a table (01, "The table"): each by what it is worth. specs/Layout.antt counts them from 0, as 01 does.
pub const ROM: u8 = 1;

pub const VALUE: u8 = 2;

pub const FRACTION: u8 = 4;

pub const BASE: u8 = 8;

pub const MULT: u8 = 16;

pub const SCRIPT: u8 = 32;

pub const LARGE_POWER: u8 = 64;

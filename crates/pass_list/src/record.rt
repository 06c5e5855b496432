// An edge of the pass list. The definitions are in specs/StoredEdge.antt and specs/Stored.antt; `pass_list::read` reads it, and `pass_list::write` stores it.
use crate::kind::Kind;
use text::{Offset, Place};

// The numeric data of an edge. Where a `has_` flag is false, its field is absent and holds 0.
#[derive(Clone, Copy)]
pub struct PassData {
    pub value: f64,
    pub base_multiplier: f64,
    pub base: u64,
    pub has_value: bool,
    pub has_base: bool,
    pub has_mult: bool,
    pub has_script: bool,
    pub large_power: bool,
    // type "digit", one place, value 0 to 9
    pub digit: bool,
    // orig_txt 零 or 〇
    pub gap: bool,
    // script "CJK"
    pub cjk: bool,
    // how many digits stand after the point
    pub decimals: u16,
    // whether a point without a record stands at its end
    pub point: bool,
    // the script's bytes in the table
    pub script: Offset,
    pub script_len: usize,
}

#[derive(Clone, Copy)]
pub struct PassEdge {
    pub start: Place,
    pub end: Place,
    pub kind: Kind,
    // where the character's record stands in the table; 0 for a joined edge
    pub record_at: Offset,
    pub num: PassData,
}

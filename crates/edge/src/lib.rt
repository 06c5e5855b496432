// Edges in their listing (01, "Listing"; the Rust's edge.rs): what is read of them and written, and the bits of a map. The modules read whatever stands there;
// `edge_check` refuses, `edge_write` writes.
#![tactic(auto)]

pub mod bits; // bits.rt: the bits of an edge's map
pub mod head; // head.rt: the head of an edge
pub mod next; // next.rt: where the next edge begins
pub mod numeric; // numeric.rt: the fields of a numeric edge
pub mod data; // data.rt: numeric data as the fields that it is listed with
pub mod theorems; // theorems.rt: what was listed is read back, an accepted listing is its edges' bytes (theorems)

ghost use Rattle.std.specs.Prelude.{◌≡◌, true, false, ◌+◌, ◌/◌, ◌%◌, ◌≤◌, ◌<◌, eqb, length};
ghost use Rattle.edge.specs.Layout.{script_at};
ghost use Rattle.edge.specs.View.{part_at};

use fields::Part;
use text::{Offset, Place};

// The head of an edge: its map, its span, its type and txt, and where its numeric fields begin.
#[derive(Clone, Copy)]
pub struct EdgeView {
    pub map: u16,
    pub start: Place,
    pub end: Place,
    pub ty: Part,
    pub txt: Part,
    pub fields: Offset,
}

// The fields of a numeric edge as they are listed, floats as their bits. Those whose bit of the map stands count.
// Kept with the map beside the values, and not as Options: the listing (01) and `rilvostam_edge_at` of the C interface give out the map itself, so Options would say its bits twice.
#[derive(Clone, Copy)]
pub struct NumFields {
    pub map: u16,
    pub value: u64,
    pub numerator: u64,
    pub denominator: u64,
    pub base: u64,
    pub base_multiplier: u64,
    pub orig: Part,
    pub script: Part,
    pub value_s: Part,
    pub decimals: u8,
}

// The numeric data of an edge. Its floats are no NaN.
// Kept beside NumFields: one generic struct would still need both names, and `num_fields` would stay as long, as two fields change their value and not only their type.
#[derive(Clone, Copy)]
pub struct NumData {
    pub map: u16,
    pub value: f64,
    pub numerator: u64,
    pub denominator: u64,
    pub base: u64,
    pub base_multiplier: f64,
    pub orig: Part,
    pub script: Part,
    pub value_s: Part,
    pub decimals: u8,
}

// Whether the bit of value p stands in a map.
pub fn bit(map: u16, p: u16) -> bool
    requires { 0 < p }
    ensures { result ≡ eqb (map / p % 2) 1 }
{
    map / p % 2 == 1
}

// What reading gives where the bit of value p stands in a map; where it does not, another value.
fn if_bit<T: Copy, F: FnOnce() -> T>(map: u16, p: u16, absent: T, read: F) -> T
    requires positive { 0 < p }
    requires readable { eqb (map / p % 2) 1 ≡ true → F.pre read }
    ensures there { eqb (map / p % 2) 1 ≡ true → F.post read result }
    ensures absent { eqb (map / p % 2) 1 ≡ false → result ≡ absent }
{
    if bit(map, p) { read() } else { absent }
}

// The text whose length stands at an offset.
fn text_at(s: &[u8], at: usize) -> Part
    requires { at + 2 ≤ length s.now }
    ensures { result ≡ part_at s.now at }
{
    Part {
        at: Offset(at + 2),
        len: fields::u16_at(s, at) as usize,
    }
}

// Where the script of a numeric edge stands, whose value stands at v.
pub fn script_at(map: u16, v: usize) -> usize
    requires { v ≤ 10000000000000000000 }
    ensures { (result ≡ script_at map v) × (result ≤ v + 40) }
{
    v + 8
        * ((map / bits::VALUE % 2)
            + 2 * (map / bits::FRACTION % 2)
            + (map / bits::BASE % 2)
            + (map / bits::MULT % 2)) as usize
}

// The edge of one character in the pass list, from its record in the table. The definition is char_stored of specs/CharStored.antt.
#![tactic(auto)]

pub mod fraction; // fraction.rt: the fraction of its record
pub mod add; // add.rt: a character added to the lattice

ghost use Rattle.std.specs.Prelude.{◌≡◌, ◌+◌, ◌<◌};
ghost use Rattle.text.specs.Bytes.{same};
ghost use Rattle.fields.specs.Part.{part_of};
ghost use Rattle.table.specs.Answers.{Within, Inside};
ghost use Rattle.passes.specs.Passes.{cjk};
ghost use Rattle.pass_list.specs.StoredEdge.{num_data, Small, EdgeIs};
ghost use Rattle.characters.specs.CharStored.{number_if, char_stored};
ghost use Rattle.fields.specs.Fields.{u16_limit};

use fields::Part;
use pass_list::kind::Kind;
use pass_list::record::{PassData, PassEdge};
use table::bits;
use table::digit::is_digit_type;
use table::layout::NumProp;
use text::{Offset, Place};

// A number that the record has, or 0.
fn number_if(there: bool, n: u64) -> u64
    ensures { result ≡ number_if there n }
{
    if there { n } else { 0 }
}

fn is_cjk(table: &[u8], script: Part) -> bool
    requires { Within table.now script }
    ensures { result ≡ same (part_of table.now script) cjk }
{
    let at = script.at.0;
    let end = at + script.len;
    text::same_bytes(&table[at..end], b"CJK")
}

fn char_num(
    table: &[u8],
    prop: NumProp,
    record_at: Offset,
    place: Place,
    code: u32,
    point: bool,
) -> PassData
    requires { Inside table.now prop
        × Small (char_stored table.now prop record_at.0 place.0 code point) }
    ensures { result ≡ num_data (char_stored table.now prop record_at.0 place.0 code point) }
{
    let n = prop.numbers;
    let num_type = prop.num_type;
    let script = prop.script;
    let script_at = script.at;
    let has_value = prop.map / bits::VALUE % 2 == 1;
    let has_base = prop.map / bits::BASE % 2 == 1;
    let has_mult = prop.map / bits::MULT % 2 == 1;
    let has_script = prop.map / bits::SCRIPT % 2 == 1;
    let value = number_if(has_value, n.value);
    PassData {
        value: whole::exact_f64(value),
        base_multiplier: whole::exact_f64(number_if(has_mult, n.mult)),
        base: number_if(has_base, n.base),
        has_value: has_value,
        has_base: has_base,
        has_mult: has_mult,
        has_script: has_script,
        large_power: prop.map / bits::LARGE_POWER % 2 == 1,
        digit: is_digit_type(table, num_type) & has_value & (value <= 9),
        gap: (code == 0x96F6) | (code == 0x3007),
        cjk: has_script & is_cjk(table, script),
        decimals: 0,
        point: point,
        script: script_at,
        script_len: script.len,
    }
}

// The edge of a code point at a place of the line; its record stands at record_at in the table. A point that counts stands at its end, or none.
pub fn char_edge(
    table: &[u8],
    prop: NumProp,
    record_at: Offset,
    place: Place,
    code: u32,
    point: bool,
) -> PassEdge
    requires { Inside table.now prop × Small (char_stored table.now prop record_at.0 place.0 code point)
        × (place.0 + 1 < u16_limit) }
    ensures { EdgeIs result (char_stored table.now prop record_at.0 place.0 code point) }
{
    PassEdge {
        start: place,
        end: Place(place.0 + 1),
        kind: Kind::Character,
        record_at: record_at,
        num: char_num(table, prop, record_at, place, code, point),
    }
}

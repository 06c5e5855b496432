// The bytes of an edge in the pass list, read. The definitions are those of `pass_list`, specs/StoredEdge.antt and specs/Stored.antt; `pass_list::write` stores them.
ghost use Rattle.std.specs.Prelude.{◌≡◌, ◌+◌, ◌≤◌, length};
ghost use Rattle.pass_list.specs.StoredEdge.{num_data, EdgeIs, Small};
ghost use Rattle.pass_list.specs.Layout.{SIZE};
ghost use Rattle.pass_list.specs.Stored.{stored_at};

use crate::kind::Kind;
use crate::layout;
use crate::record::{PassData, PassEdge};
use text::{Offset, Place};

// The numeric data of the edge at an offset.
fn num_at(list: &[u8], at: usize) -> PassData
    requires { (at + SIZE ≤ length list.now) × Small (stored_at list.now at) }
    ensures { result ≡ num_data (stored_at list.now at) }
{
    let map = fields::u16_at(list, at + layout::MAP_AT);
    PassData {
        value: whole::exact_f64(fields::u64_at(list, at + layout::VALUE_AT)),
        base_multiplier: whole::exact_f64(fields::u64_at(list, at + layout::MULT_AT)),
        base: fields::u64_at(list, at + layout::BASE_AT),
        has_value: map / layout::HAS_VALUE % 2 == 1,
        has_base: map / layout::HAS_BASE % 2 == 1,
        has_mult: map / layout::HAS_MULT % 2 == 1,
        has_script: map / layout::HAS_SCRIPT % 2 == 1,
        large_power: map / layout::LARGE_POWER % 2 == 1,
        digit: map / layout::DIGIT % 2 == 1,
        gap: map / layout::GAP % 2 == 1,
        cjk: map / layout::CJK % 2 == 1,
        decimals: map / layout::DECIMALS % 16,
        point: map / layout::POINT % 2 == 1,
        script: Offset(fields::u64_at(list, at + layout::SCRIPT_AT) as usize),
        script_len: fields::u64_at(list, at + layout::SCRIPT_LEN_AT) as usize,
    }
}

// The kind of the edge that stands at an offset.
pub fn kind_at(list: &[u8], at: usize) -> Kind
    requires { at + SIZE ≤ length list.now }
    ensures { result ≡ (stored_at list.now at).kind }
{
    Kind::from(fields::u16_at(list, at + layout::KIND_AT))
}

// The edge that stands at an offset.
pub fn read_edge(list: &[u8], at: usize) -> PassEdge
    requires { (at + SIZE ≤ length list.now) × Small (stored_at list.now at) }
    ensures { EdgeIs result (stored_at list.now at) }
{
    PassEdge {
        start: Place(fields::u16_at(list, at) as usize),
        end: Place(fields::u16_at(list, at + layout::END_AT) as usize),
        kind: kind_at(list, at),
        record_at: Offset(fields::u64_at(list, at + layout::RECORD_AT) as usize),
        num: num_at(list, at),
    }
}

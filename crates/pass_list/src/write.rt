// The bytes of an edge in the pass list, stored. The definitions are those of `pass_list`, specs/StoredEdge.antt and specs/Stored.antt; `pass_list::read` reads them.
ghost use Rattle.std.specs.Prelude.{◌≡◌, ◌+◌, ◌^◌, ◌≤◌, ◌<◌, length};
ghost use Rattle.std.proofs.lemmas.List.Edits.{sets};
ghost use Rattle.pass_list.specs.StoredEdge.{StoredEdge, EdgeIs, NumIs};
ghost use Rattle.pass_list.specs.Layout.{SIZE, value_at};
ghost use Rattle.pass_list.specs.Stored.{map_of, num_bytes, record_bytes};

use crate::layout;
use crate::record::{PassData, PassEdge};
use fields::write::bit_if;

fn map_of(n: PassData) -> u16
    requires { n.decimals < 2 ^ 4 }
    ensures { result ≡ map_of n }
{
    bit_if(n.has_value, layout::HAS_VALUE)
        + bit_if(n.has_base, layout::HAS_BASE)
        + bit_if(n.has_mult, layout::HAS_MULT)
        + bit_if(n.has_script, layout::HAS_SCRIPT)
        + bit_if(n.large_power, layout::LARGE_POWER)
        + bit_if(n.digit, layout::DIGIT)
        + bit_if(n.gap, layout::GAP)
        + bit_if(n.cjk, layout::CJK)
        + n.decimals * layout::DECIMALS
        + bit_if(n.point, layout::POINT)
}

// The numbers of the edge at an offset, from its value on.
fn put_num(out: &mut [u8], at: usize, record_at: u64, n: PassData)
    requires { (at + SIZE ≤ length out.old) × ((x : StoredEdge) × NumIs n x) }
    ensures { (x : StoredEdge) → NumIs n x → record_at ≡ x.record_offset
        → out.new ≡ sets out.old (at + value_at) (num_bytes x) }
{
    fields::write::put_u64(out, at + layout::VALUE_AT, whole::exact_u64(n.value));
    fields::write::put_u64(out, at + layout::BASE_AT, n.base);
    fields::write::put_u64(
        out,
        at + layout::MULT_AT,
        whole::exact_u64(n.base_multiplier),
    );
    fields::write::put_u64(out, at + layout::RECORD_AT, record_at);
    fields::write::put_u64(out, at + layout::SCRIPT_AT, n.script.0 as u64);
    fields::write::put_u64(out, at + layout::SCRIPT_LEN_AT, n.script_len as u64);
}

// Stores an edge at an offset.
pub fn write_edge(out: &mut [u8], at: usize, e: PassEdge)
    requires { (at + SIZE ≤ length out.old) × ((x : StoredEdge) × EdgeIs e x) }
    ensures { (x : StoredEdge) → EdgeIs e x → out.new ≡ sets out.old at (record_bytes x) }
{
    fields::write::put_u16(out, at, e.start.0 as u16);
    fields::write::put_u16(out, at + layout::END_AT, e.end.0 as u16);
    fields::write::put_u16(out, at + layout::KIND_AT, u16::from(e.kind));
    fields::write::put_u16(out, at + layout::MAP_AT, map_of(e.num));
    put_num(out, at, e.record_at.0 as u64, e.num);
}

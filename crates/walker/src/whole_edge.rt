// A whole edge by its numbers, for a caller that takes no bytes apart: its head, the fields that stand behind it, and where the next edge begins.
// The steps are those of `walker::steps`, so nothing is required of the bytes.
ghost use Rattle.std.specs.Prelude.{◌≡◌, true, ◌≤◌, length};
ghost use Rattle.edge.specs.Layout.{stands, fields_end};
ghost use Rattle.walker.specs.WholeEdge.{no_fields, fields_behind, whole_edge_at};

use edge::{EdgeView, NumFields, bits};
use fields::Part;
use text::Offset;

// The fields of a regular edge: it has none.
fn no_fields(map: u16) -> NumFields
    ensures { result ≡ no_fields map }
{
    let none = Part {
        at: Offset(0),
        len: 0,
    };
    NumFields {
        map,
        value: 0,
        numerator: 0,
        denominator: 0,
        base: 0,
        base_multiplier: 0,
        orig: none,
        script: none,
        value_s: none,
        decimals: 0,
    }
}

// The fields behind the head of an edge, which ends at an offset.
fn fields_behind(map: u16, s: &[u8], at: usize) -> NumFields
    requires { stands 0 map ≡ true → fields_end map s.now at ≤ length s.now }
    ensures { result ≡ fields_behind map s.now at }
{
    if edge::bit(map, bits::NUMERIC) {
        edge::numeric::fields_at(map, s, at)
    } else {
        no_fields(map)
    }
}

// The whole edge at an offset.
pub fn whole_edge_at(listing: &[u8], at: Offset) -> Option<(EdgeView, NumFields, Offset)>
    ensures { result ≡ whole_edge_at listing.now at.0 }
{
    let head = crate::steps::here_at(listing, at)?;
    let fields = fields_behind(head.map, listing, head.fields.0);
    Some((head, fields, crate::steps::behind(listing, at)))
}

// A regular edge written at an offset of a lent buffer (01, "Listing"), or the answer that there is no room.
ghost use Rattle.std.specs.Prelude.{◌≡◌, ◌≤◌, ◌<◌, length};
ghost use Rattle.edge.specs.Edge.{edge_bytes};
ghost use Rattle.edge.specs.Write.{written, written_to, regular};
ghost use Rattle.fields.specs.Fields.{u16_limit};

use text::Place;

// Writes a regular edge.
pub fn write_regular(
    out: &mut [u8],
    at: usize,
    start: Place,
    end: Place,
    ty: &[u8],
    txt: &[u8],
) -> Option<usize>
    requires { (at ≤ length out.old) × (length ty.now < u16_limit) × (length txt.now < u16_limit)
        × (start.0 < u16_limit) × (end.0 < u16_limit) }
    ensures answer { result ≡ written out.old at
        (edge_bytes (regular start.0 end.0 ty.now txt.now)) }
    ensures bytes { out.new ≡ written_to out.old at
        (edge_bytes (regular start.0 end.0 ty.now txt.now)) }
{
    if out.len() < at + 10 + ty.len() + txt.len() {
        return None;
    }
    Some(crate::head::put_head(out, at, 0, start, end, ty, txt))
}

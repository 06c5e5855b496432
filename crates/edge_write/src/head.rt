// What every edge of a listing begins with, written (01, "Listing").
ghost use Rattle.std.specs.Prelude.{◌≡◌, ◌+◌, ◌≤◌, ◌<◌, length};
ghost use Rattle.edge.specs.Edge.{str, head_bytes};
ghost use Rattle.edge.specs.Write.{Put};
ghost use Rattle.fields.specs.Fields.{u16_limit};

use text::Place;

// A string: its u16 length and its bytes.
pub(crate) fn put_text(out: &mut [u8], at: usize, t: &[u8]) -> usize
    requires { (at + 2 + length t.now ≤ length out.old) × (length t.now < u16_limit) }
    ensures { (result ≡ at + 2 + length t.now)
        × Put out.old out.new at result (str t.now) }
{
    fields::write::put_u16(out, at, t.len() as u16);
    fields::copy::copy_in(out, at + 2, t);
    at + 2 + t.len()
}

// What every edge begins with.
// Start, end, type and txt stay four parameters: the callers have them singly, so a struct would be made at each call only to be taken apart here.
pub fn put_head(
    out: &mut [u8],
    at: usize,
    map: u16,
    start: Place,
    end: Place,
    ty: &[u8],
    txt: &[u8],
) -> usize
    requires { (at + 10 + length ty.now + length txt.now ≤ length out.old) × (length ty.now < u16_limit)
        × (length txt.now < u16_limit) × (start.0 < u16_limit) × (end.0 < u16_limit) }
    ensures { (result ≡ at + 10 + length ty.now + length txt.now)
        × Put out.old out.new at result
        (head_bytes map start.0 end.0 ty.now txt.now) }
{
    fields::write::put_u16(out, at, map);
    fields::write::put_u16(out, at + 2, start.0 as u16);
    fields::write::put_u16(out, at + 4, end.0 as u16);
    let txt_at = put_text(out, at + 6, ty);
    put_text(out, txt_at, txt)
}

// A numeric edge written at an offset of a lent buffer (01, "Listing"), or the answer that there is no room. `edge_write::regular` writes a regular one.
ghost use Rattle.std.specs.Prelude.{◌≡◌, true, false, ◌+◌, ◌*◌, ◌/◌, ◌%◌, ◌≤◌, ◌<◌, length, eqb};
ghost use Rattle.std.specs.Fn.{FnOnceTakesAtMut, FnOnceReturnsAtMut};
ghost use Rattle.std.proofs.lemmas.List.Edits.{sets};
ghost use Rattle.fields.specs.Fields.{bytes_of, u16_limit};
ghost use Rattle.fields.specs.Flag.{bytes_if};
ghost use Rattle.edge.specs.Edge.{str, numeric_bytes, edge_bytes};
ghost use Rattle.edge.specs.Layout.{script_at, only};
ghost use Rattle.edge.specs.Write.{written, written_to, Put, numeric, numbers_bytes, text_past_if, fields_past, Writable};
ghost use Rattle.fields.specs.Part.{part_of};
ghost use Rattle.edge.specs.View.{numeric_of};

use edge::{NumFields, bits};
use fields::Part;
use text::Place;

// A string that is a part of a slice.
fn put_part(out: &mut [u8], at: usize, s: &[u8], t: Part) -> usize
    requires { (at + 2 + t.len ≤ length out.old) × (t.len < u16_limit) × (t.at.0 + t.len ≤ length s.now) }
    ensures { (result ≡ at + 2 + t.len)
        × Put out.old out.new at result (str (part_of s.now t)) }
{
    let from = t.at.0;
    let to = from + t.len;
    crate::head::put_text(out, at, &s[from..to])
}

// A number.
fn put_number(out: &mut [u8], at: usize, v: u64) -> usize
    requires { at + 8 ≤ length out.old }
    ensures { (result ≡ at + 8) × (out.new ≡ sets out.old at (bytes_of 8 v)) }
{
    fields::write::put_u64(out, at, v);
    at + 8
}

// A byte.
fn put_byte(out: &mut [u8], at: usize, v: u8) -> usize
    requires { at + 1 ≤ length out.old }
    ensures { (result ≡ at + 1) × (out.new ≡ sets out.old at (bytes_of 1 v)) }
{
    out[at] = v;
    at + 1
}

// What is put where the bit of value p stands in a map, up to the offset answered; nothing where it does not.
fn put_if<F: FnOnce(&mut [u8]) -> usize>(
    map: u16,
    p: u16,
    out: &mut [u8],
    at: usize,
    put: F,
) -> usize
    requires positive { 0 < p }
    requires room { eqb (map / p % 2) 1 ≡ true → FnOnceTakesAtMut F.FnOnce put out.old }
    ensures there { eqb (map / p % 2) 1 ≡ true → FnOnceReturnsAtMut F.FnOnce put out.old result out.new }
    ensures absent { eqb (map / p % 2) 1 ≡ false → (result ≡ at) × (out.new ≡ out.old) }
{
    if edge::bit(map, p) { put(out) } else { at }
}

// The numbers of a numeric edge.
fn put_numbers(out: &mut [u8], at: usize, d: NumFields) -> usize
    requires { script_at d.map at ≤ length out.old }
    ensures { (result ≡ script_at d.map at) × Put out.old out.new at result (numbers_bytes d) }
{
    let map = d.map;
    let numerator = put_if(map, bits::VALUE, out, at, |w| put_number(w, at, d.value));
    let denominator = put_if(map, bits::FRACTION, out, numerator, |w| {
        put_number(w, numerator, d.numerator)
    });
    let base = put_if(map, bits::FRACTION, out, denominator, |w| {
        put_number(w, denominator, d.denominator)
    });
    let multiplier = put_if(map, bits::BASE, out, base, |w| put_number(w, base, d.base));
    put_if(map, bits::MULT, out, multiplier, |w| {
        put_number(w, multiplier, d.base_multiplier)
    })
}

// The fields of a numeric edge, their texts in three slices.
fn put_fields(out: &mut [u8], at: usize, d: NumFields, o: &[u8], c: &[u8], v: &[u8]) -> usize
    requires { (fields_past d at ≤ length out.old) × Writable o.now c.now v.now d }
    ensures { Put out.old out.new at result
        (numeric_bytes (numeric_of o.now c.now v.now d)) }
{
    let value = put_part(out, at, o, d.orig);
    let script = put_numbers(out, value, d);
    let value_s = put_if(
        d.map,
        bits::SCRIPT,
        out,
        script,
        |w| put_part(w, script, c, d.script),
    );
    let decimals = put_if(
        d.map,
        bits::VALUE_S,
        out,
        value_s,
        |w| put_part(w, value_s, v, d.value_s),
    );
    put_if(
        d.map,
        bits::DECIMALS,
        out,
        decimals,
        |w| put_byte(w, decimals, d.decimals),
    )
}

// Behind a text that is there only if a bit stands.
fn text_past_if(map: u16, p: u16, len: usize, at: usize) -> usize
    requires { (0 < p) × (len < u16_limit) × (at ≤ 10000000000000000000) }
    ensures { (result ≡ text_past_if (eqb (map / p % 2) 1) len at) × (result ≤ at + 65537) }
{
    if edge::bit(map, p) { at + 2 + len } else { at }
}

// Where fields end that are written from an offset on.
fn fields_past(d: NumFields, at: usize) -> usize
    requires { (d.orig.len < u16_limit) × (d.script.len < u16_limit) × (d.value_s.len < u16_limit)
        × (at ≤ 9500000000000000000) }
    ensures { result ≡ fields_past d at }
{
    let script = edge::script_at(d.map, at + 2 + d.orig.len);
    let value_s = text_past_if(d.map, bits::SCRIPT, d.script.len, script);
    let decimals = text_past_if(d.map, bits::VALUE_S, d.value_s.len, value_s);
    decimals + (d.map / bits::DECIMALS % 2) as usize
}

// Writes a numeric edge. The texts of its fields are parts of o (orig_txt), c (script) and v (value_s).
pub fn write_numeric(
    out: &mut [u8],
    at: usize,
    start: Place,
    end: Place,
    ty: &[u8],
    txt: &[u8],
    d: NumFields,
    o: &[u8],
    c: &[u8],
    v: &[u8],
) -> Option<usize>
    requires { (at ≤ length out.old) × (length ty.now < u16_limit) × (length txt.now < u16_limit)
        × (start.0 < u16_limit) × (end.0 < u16_limit) × Writable o.now c.now v.now d }
    ensures answer { result ≡ written out.old at
        (edge_bytes (numeric start.0 end.0 ty.now txt.now o.now c.now
        v.now d)) }
    ensures bytes { out.new ≡ written_to out.old at
        (edge_bytes (numeric start.0 end.0 ty.now txt.now o.now c.now
        v.now d)) }
{
    let head = at + 10 + ty.len() + txt.len();
    if out.len() < fields_past(d, head) {
        return None;
    }
    crate::head::put_head(out, at, d.map, start, end, ty, txt);
    Some(put_fields(out, head, d, o, c, v))
}

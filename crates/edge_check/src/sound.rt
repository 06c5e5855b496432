// Whether an edge of a listing may stand (01, "Listing", refusal 6).
ghost use Rattle.std.specs.Prelude.{◌≡◌, true, cond, ◌+◌, ◌/◌, ◌%◌, ◌≤◌, ◌<◌, length, eqb};
ghost use Rattle.text.specs.Text.{well_formed};
ghost use Rattle.edge.specs.Layout.{stands, fields_end, next_at, only, numeric_at, edge_at};
ghost use Rattle.edge.specs.Check.{allowed, each, sound_numeric, sound, good};
ghost use Rattle.fields.specs.Part.{part_of};
ghost use Rattle.edge.specs.View.{numbers_sound, fields_sound, Inside};

use edge::{NumFields, bits};
use fields::Part;
use whole::TOP;

// Whether a map may stand.
fn allowed(given: bool, map: u16) -> bool
    ensures { result ≡ allowed given map }
{
    if given {
        return map == 0;
    }
    if edge::bit(map, bits::NUMERIC) {
        map < 1024
    } else {
        map == 0
    }
}

fn text_sound(s: &[u8], t: Part) -> bool
    requires { t.at.0 + t.len ≤ length s.now }
    ensures { result ≡ well_formed (part_of s.now t) }
{
    let from = t.at.0;
    let to = from + t.len;
    text::line::well_formed(&s[from..to])
}

fn text_sound_if(map: u16, p: u16, s: &[u8], t: Part) -> bool
    requires { (0 < p) × (eqb (map / p % 2) 1 ≡ true → t.at.0 + t.len ≤ length s.now) }
    ensures { result ≡ cond (eqb (map / p % 2) 1) (well_formed (part_of s.now t)) true }
{
    if edge::bit(map, p) {
        text_sound(s, t)
    } else {
        true
    }
}

// Whether the numbers of a numeric edge may stand.
fn numbers_sound(d: NumFields) -> bool
    ensures { result ≡ numbers_sound d }
{
    let fraction = (d.numerator <= TOP) & (d.denominator <= TOP) & (0 < d.denominator);
    let count = (1 <= d.decimals) & (d.decimals <= 15);
    (!edge::bit(d.map, bits::FRACTION) | fraction)
        & (!edge::bit(d.map, bits::BASE) | (d.base <= TOP))
        & (!edge::bit(d.map, bits::DECIMALS) | count)
}

// Whether the fields of a numeric edge may stand.
fn fields_sound(s: &[u8], d: NumFields) -> bool
    requires { Inside (length s.now) d }
    ensures { result ≡ fields_sound s.now d }
{
    let orig = text_sound(s, d.orig);
    let script = text_sound_if(d.map, bits::SCRIPT, s, d.script);
    let value_s = text_sound_if(d.map, bits::VALUE_S, s, d.value_s);
    numbers_sound(d) & orig & script & value_s
}

// Whether an edge with this map may stand as far as its fields go, if it has any.
fn fields_sound_at(map: u16, s: &[u8], at: usize) -> bool
    requires { stands 0 map ≡ true → fields_end map s.now at ≤ length s.now }
    ensures { result ≡ each sound_numeric (only (stands 0 map) (numeric_at map s.now at)) }
{
    if edge::bit(map, bits::NUMERIC) {
        fields_sound(s, edge::numeric::fields_at(map, s, at))
    } else {
        true
    }
}

// Whether the edge at an offset, which is whole, may stand over a line of so many characters.
fn edge_sound(s: &[u8], at: usize, chars: usize) -> bool
    requires { next_at s.now at ≤ length s.now }
    ensures { result ≡ sound chars (edge_at s.now at) }
{
    let e = edge::head::edge_at(s, at);
    let span = (e.start.0 < e.end.0) & (e.end.0 <= chars);
    let texts = text_sound(s, e.ty) & text_sound(s, e.txt);
    span & texts & fields_sound_at(e.map, s, e.fields.0)
}

// Whether the edge at an offset, which ends before next, is whole and may stand.
pub fn edge_legal(s: &[u8], at: usize, next: usize, chars: usize, given: bool) -> bool
    requires { next ≡ next_at s.now at }
    ensures { result ≡ good given chars s.now at }
{
    if s.len() < next {
        return false;
    }
    allowed(given, fields::u16_at(s, at)) & edge_sound(s, at, chars)
}

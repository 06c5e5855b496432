// What an edge that a choice makes is put together of (01, "Fractions and percentages"): its fields, and what is read of the edges
// that are used; and the two writers that need no more than that.
ghost use Rattle.std.specs.Prelude.{◌≡◌, List, ℕ, ◌+◌, ◌≤◌, ◌<◌, length, get_or};
ghost use Rattle.std.proofs.Math.Option.{some};
ghost use Rattle.edge.specs.Edge.{Edge, Text};
ghost use Rattle.edge.specs.Layout.{fields_end, numeric_at};
ghost use Rattle.fields.specs.Part.{part_of};
ghost use Rattle.lattice.specs.Lattice.{add};
ghost use Rattle.lattice.specs.Kept.{no_edge, Holds, SameBehind};
ghost use Rattle.fraction_choices.specs.Choice.{value_or, HasValue, One};
ghost use Rattle.fractions.specs.NewParts.{HeadIs, script_from, script_len, fraction_fields, HoldsCall, fraction_with, txt_percent_of};
ghost use Rattle.fractions.specs.NewTexts.{text_room};
ghost use Rattle.table.specs.Layout.{max_string};
ghost use Rattle.fields.specs.Fields.{u16_limit};

use crate::texts::TEXT_ROOM;
use edge::{EdgeView, NumFields, bits};
use fields::Part;
use lattice::Lattice;
use passes::ratio::Ratio;
use text::{Offset, Place};

// ---- fields

// The script of a numeric edge with this map, whose fields stand at an offset.
pub fn copy_script(buf: &mut [u8; TEXT_ROOM], work: &[u8], map: u16, at: usize) -> Option<usize>
    requires { (fields_end map work.now at ≤ length work.now)
        × ((t : Text) → (numeric_at map work.now at).script ≡ some t → length t ≤ max_string) }
    ensures { (script_from buf.new result ≡ (numeric_at map work.now at).script)
        × (script_len result ≤ max_string) }
{
    let d = edge::numeric::fields_at(map, work, at);
    if !edge::bit(map, bits::SCRIPT) {
        return None;
    }
    let from = d.script.at.0;
    let n = d.script.len;
    let to = from + n;
    fields::copy::copy_in(buf, 0, &work[from..to]);
    Some(n)
}

// The fields of a fraction.
fn fraction_fields(size: usize, ratio: Ratio, copied: Option<usize>) -> NumFields
    ensures { result ≡ fraction_fields size ratio.numerator ratio.denominator copied }
{
    let none = Part {
        at: Offset(0),
        len: 0,
    };
    let orig = Part {
        at: Offset(0),
        len: size,
    };
    let (bit, script) = match copied {
        None => (0, none),
        Some(len) => (bits::SCRIPT, Part { at: Offset(0), len }),
    };
    NumFields {
        map: bits::NUMERIC + bits::FRACTION + bits::ACTIVE + bit,
        value: 0,
        numerator: ratio.numerator,
        denominator: ratio.denominator,
        base: 0,
        base_multiplier: 0,
        orig,
        script,
        value_s: none,
        decimals: 0,
    }
}

// ---- reading

// The head of the i-th edge.
pub fn head_of(work: &[u8], lattice: Lattice, i: usize) -> EdgeView
    requires { ((n : ℕ) × ((es : List Edge) × HoldsCall n work.now lattice es)) × (lattice.len ≡ 0 → ⊥)
        × (i < lattice.count) }
    ensures { (n : ℕ) (es : List Edge) → HoldsCall n work.now lattice es
        → HeadIs work.now (get_or es i no_edge) result }
{
    let at = lattice::offset_at(work, lattice, i);
    edge::head::edge_at(work, at)
}

// The value of the i-th edge, which has one.
pub fn value_of(work: &[u8], lattice: Lattice, i: usize) -> u64
    requires { ((n : ℕ) × ((es : List Edge) × HoldsCall n work.now lattice es × HasValue (get_or es i no_edge)))
        × (lattice.len ≡ 0 → ⊥) × (i < lattice.count) }
    ensures { (n : ℕ) (es : List Edge) → HoldsCall n work.now lattice es
        → HasValue (get_or es i no_edge) → result ≡ value_or (get_or es i no_edge) }
{
    let e = head_of(work, lattice, i);
    let d = edge::numeric::fields_at(e.map, work, e.fields.0);
    whole::whole_part(f64::from_bits(d.value))
}

// ---- adding

// The right edge's txt and "%", from a place on.
pub fn add_txt_percent(work: &mut [u8], lattice: Lattice, place: Place, right: usize) -> Lattice
    requires { ((n : ℕ) × ((es : List Edge) × HoldsCall n work.old lattice es × One es right))
        × (lattice.len ≡ 0 → ⊥) × (place.0 < u16_limit) }
    ensures { SameBehind work.old work.new × ((n : ℕ) (es : List Edge)
        → HoldsCall n work.old lattice es → One es right
        → Holds work.new result (add es (txt_percent_of es place.0 right))) }
{
    let b = head_of(work, lattice, right);
    let mut buf = [0u8; TEXT_ROOM];
    let n = crate::texts::put_txt_percent(&mut buf, work, b.txt);
    lattice_add::regular::add_regular(work, lattice, place, b.end, b"percentage", &buf[..n])
}

// The fraction with this text, its script at the front of a buffer.
pub fn add_composed(
    work: &mut [u8],
    lattice: Lattice,
    start: Place,
    end: Place,
    txt: &[u8],
    ratio: Ratio,
    copied: Option<usize>,
    script: &[u8; TEXT_ROOM],
) -> Lattice
    requires { ((es : List Edge) × Holds work.old lattice es) × (start.0 < u16_limit) × (end.0 < u16_limit)
        × (length txt.now ≤ text_room) × (script_len copied ≤ max_string) }
    ensures { SameBehind work.old work.new
        × ((es : List Edge) → Holds work.old lattice es
        → Holds work.new result (add es (fraction_with start.0 end.0 txt.now
        (ratio.numerator, ratio.denominator) (script_from script.now copied)))) }
{
    let d = fraction_fields(txt.len(), ratio, copied);
    lattice_add::numeric::add_numeric(
        work,
        lattice,
        start,
        end,
        b"fraction",
        txt,
        d,
        txt,
        script,
        b"",
    )
}

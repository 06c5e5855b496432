// A stored edge of the pass list with its texts as an edge of the lattice (01, "From characters to edges"): the fields that it is listed with.
ghost use Rattle.std.specs.Prelude.{◌≡◌, ℕ, ◌*◌, ◌≤◌, List, length};
ghost use Rattle.text.specs.Text.{chars};
ghost use Rattle.text.specs.Line.{max_chars};
ghost use Rattle.whole.specs.Whole.{of_nat};
ghost use Rattle.pass_list.specs.StoredEdge.{StoredEdge};
ghost use Rattle.pass_list.specs.Kind.{kind_number};
ghost use Rattle.numbers.specs.Ready.{Offsets};
ghost use Rattle.edge.specs.Edge.{Edge};
ghost use Rattle.lattice.specs.Lattice.{add};
ghost use Rattle.lattice.specs.Kept.{Holds, SameBehind};
ghost use Rattle.pass_edge.specs.Texts.{TextsAre};
ghost use Rattle.pass_edge.specs.Adding.{listed_of};
ghost use Rattle.pass_edge.specs.Fields.{stored_fraction, FractionIs, stored_map, divided, part_or, parts, stored_fields, Listable};

use edge::{NumData, NumFields, bits};
use fields::Part;
use fields::write::bit_if;
use lattice::Lattice;
use pass_list::kind::is_row;
use pass_list::record::PassEdge;
use passes::ratio::Ratio;
use text::Offset;
use text::check::PLACES;

// Every edge that is listed here is numeric and active.
const LISTED: u16 = bits::NUMERIC + bits::ACTIVE;

// The map of a stored edge: which of its fields are there.
fn map_of(edge: PassEdge, fraction: bool) -> u16
    ensures { result ≡ stored_map edge fraction }
{
    let kind = edge.kind;
    LISTED
        + bit_if(edge.num.has_value, bits::VALUE)
        + bit_if(fraction, bits::FRACTION)
        + bit_if(edge.num.has_base, bits::BASE)
        + bit_if(edge.num.has_mult, bits::MULT)
        + bit_if(edge.num.has_script, bits::SCRIPT)
        + bit_if(edge.num.large_power, bits::LARGE_POWER)
        + bit_if(is_row(kind), bits::VALUE_S)
        + bit_if(edge.num.decimals > 0, bits::DECIMALS)
}

// The value that is listed: the digits, divided by the power of ten where some stand after the point (02, S-13).
fn listed_value(digits: f64, decimals: u16) -> f64
    requires { ((n : ℕ) × (digits ≡ of_nat n)) × (decimals ≤ 15) }
    ensures { result ≡ divided decimals digits }
{
    if decimals == 0 {
        return digits;
    }
    decimals::quotient(digits, decimals as u64)
}

// A part that is there, or none.
fn part_or(there: bool, at: Offset, len: usize) -> Part
    ensures { result ≡ part_or there at.0 len }
{
    if there {
        Part { at: at, len: len }
    } else {
        Part {
            at: Offset(0),
            len: 0,
        }
    }
}

// What stands above and below the line of a fraction, or 0 twice where there is none.
fn parts(fraction: Option<Ratio>) -> (u64, u64)
    ensures { result ≡ parts fraction }
{
    match fraction {
        Some(r) => (r.numerator, r.denominator),
        None => (0, 0),
    }
}

// The fields of a stored edge with this fraction, whose txt has so many bytes.
fn fields_of(
    offs: &[usize; PLACES],
    edge: PassEdge,
    fraction: Option<Ratio>,
    len: usize,
) -> NumFields
    requires { Listable offs.now edge }
    ensures { result ≡ stored_fields offs.now edge fraction len }
{
    let start = edge.start.0;
    let end = edge.end.0;
    let from = offs[start];
    let to = offs[end];
    let orig = Part {
        at: Offset(from),
        len: to - from,
    };
    let script = part_or(edge.num.has_script, edge.num.script, edge.num.script_len);
    let kind = edge.kind;
    let value_s = part_or(is_row(kind), Offset(0), len);
    let (numerator, denominator) = parts(fraction);
    edge::data::num_fields(NumData {
        map: map_of(edge, fraction.is_some()),
        value: listed_value(edge.num.value, edge.num.decimals),
        numerator: numerator,
        denominator: denominator,
        base: edge.num.base,
        base_multiplier: edge.num.base_multiplier,
        orig: orig,
        script: script,
        value_s: value_s,
        decimals: edge.num.decimals as u8,
    })
}

// A stored edge with this fraction and these texts is added to the lattice. Its parameters stay separate: `lattice_add::numeric::add_numeric` takes them so.
pub fn add_texts(
    work: &mut [u8],
    lattice: Lattice,
    line: &[u8],
    offs: &[usize; PLACES],
    table: &[u8],
    edge: PassEdge,
    fraction: Option<Ratio>,
    ty: &[u8],
    txt: &[u8],
) -> Lattice
    requires { ((es : List Edge) × Holds work.old lattice es) × Offsets line.now offs.now
        × ((i : StoredEdge) × TextsAre line.now table.now edge ty.now txt.now i)
        × (length (chars line.now) ≤ max_chars)
        × FractionIs fraction (stored_fraction table.now (kind_number edge.kind) edge.record_at.0) }
    ensures { SameBehind work.old work.new
        × ((es : List Edge) (i : StoredEdge) → Holds work.old lattice es
        → TextsAre line.now table.now edge ty.now txt.now i
        → Holds work.new result (add es (listed_of (chars line.now) table.now i))) }
{
    let d = fields_of(offs, edge, fraction, txt.len());
    lattice_add::numeric::add_numeric(
        work, lattice, edge.start, edge.end, ty, txt, d, line, table, txt,
    )
}

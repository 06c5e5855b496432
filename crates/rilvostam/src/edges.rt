// The edge at an offset of a listing, read into numbers that the caller lends. Thin, as the functions of lib.rt.
ghost use Rattle.std.specs.Prelude.{◌≡◌};
ghost use Rattle.walker.specs.WholeEdge.{whole_edge_at};
ghost use Rattle.rilvostam.specs.EdgeNumbers.{numbers_of, edge_status, numbers_after, next_after};

use edge::{EdgeView, NumFields};
use text::Offset;

// How many numbers an edge has.
pub const EDGE_NUMBERS: usize = 19;

// The numbers of an edge, in their order.
fn numbers_of(e: EdgeView, d: NumFields) -> [u64; EDGE_NUMBERS]
    ensures { result ≡ numbers_of e d }
{
    [
        e.map as u64,
        e.start.0 as u64,
        e.end.0 as u64,
        e.ty.at.0 as u64,
        e.ty.len as u64,
        e.txt.at.0 as u64,
        e.txt.len as u64,
        d.orig.at.0 as u64,
        d.orig.len as u64,
        d.value,
        d.numerator,
        d.denominator,
        d.base,
        d.base_multiplier,
        d.script.at.0 as u64,
        d.script.len as u64,
        d.value_s.at.0 as u64,
        d.value_s.len as u64,
        d.decimals as u64,
    ]
}

// The edge at an offset, and the offset behind it.
pub fn rilvostam_edge_at(
    listing: &[u8],
    at: u64,
    numbers: &mut [u64; EDGE_NUMBERS],
    next: &mut u64,
) -> u32
    ensures status { result ≡ edge_status (whole_edge_at listing.now at) }
    ensures numbers { numbers.new
        ≡ numbers_after numbers.old (whole_edge_at listing.now at) }
    ensures next { next.new ≡ next_after at (whole_edge_at listing.now at) }
{
    match walker::whole_edge::whole_edge_at(listing, Offset(at as usize)) {
        Some((e, d, behind)) => {
            *numbers = numbers_of(e, d);
            *next = behind.0 as u64;
            0
        }
        None => {
            *next = at;
            6
        }
    }
}

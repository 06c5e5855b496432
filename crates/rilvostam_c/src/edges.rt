// The edge at an offset of a listing, read into numbers that the caller lends. Thin, as the functions of lib.rt.
ghost use Rattle.std.specs.Prelude.{◌≡◌};
ghost use Rattle.walker.specs.WholeEdge.{whole_edge_at};
ghost use Rattle.rilvostam.specs.EdgeNumbers.{edge_status, numbers_after, next_after};

use rilvostam::edges::EDGE_NUMBERS;

// The edge at an offset, and the offset behind it.
#[unsafe(no_mangle)]
pub extern "C" fn rilvostam_edge_at(
    listing: &[u8],
    at: u64,
    numbers: &mut [u64; EDGE_NUMBERS],
    next: &mut u64,
) -> u32
    ensures status { result ≡ edge_status (whole_edge_at listing.now at) }
    ensures numbers { numbers.new
        ≡ numbers_after numbers.old (whole_edge_at listing.now at) }
    ensures next { next.new ≡ next_after at (whole_edge_at listing.now at) }
{
    rilvostam::edges::rilvostam_edge_at(listing, at, numbers, next)
}

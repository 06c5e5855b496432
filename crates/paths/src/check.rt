// The checks of a call that reads a listing (01, "The rest of the call"); check 9 is in `paths::inside`.
ghost use Rattle.std.specs.Prelude.{◌≡◌};
ghost use Rattle.paths.specs.Reading.{read_check};

use crate::ReadRefusal;

// The checks 2, 3 and 6: how many characters the line has, and how many edges the listing.
#[tactic(auto, unfolding(crate::specs::Reading::read_check))]
pub fn check(line: &[u8], listing: &[u8]) -> Result<(usize, usize), ReadRefusal>
    ensures { result ≡ read_check line.now listing.now }
{
    let chars = text::check::check_line(line)?;
    let count = edge_check::check_listing(listing, chars, false).map_err(ReadRefusal::BadListing)?;
    Ok((chars, count))
}

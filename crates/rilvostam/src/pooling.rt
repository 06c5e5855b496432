// The shares of a listing (02, S-6) for C. Thin, as the functions of lib.rt.
ghost use Rattle.std.specs.Prelude.{◌≡◌};
ghost use Rattle.shares.specs.Told.{pool_told};

// What the active edges with a fraction come to together, in lowest terms.
pub fn rilvostam_pool_shares(
    line: &[u8],
    listing: &[u8],
    numerator: &mut u64,
    denominator: &mut u64,
    at: &mut u64,
) -> u32
    ensures status { result ≡ (pool_told line.now listing.now).status }
    ensures above { numerator.new ≡ (pool_told line.now listing.now).numerator }
    ensures below { denominator.new
        ≡ (pool_told line.now listing.now).denominator }
    ensures place { at.new ≡ (pool_told line.now listing.now).at }
{
    let sum = shares::told::shares_told(shares::pool_shares(line, listing));
    *numerator = sum.numerator;
    *denominator = sum.denominator;
    *at = sum.at;
    sum.status
}

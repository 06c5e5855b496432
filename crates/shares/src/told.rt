// What C is told of a listing's shares: a status, 0 or the refusal's number, and the numbers that go with it.
ghost use Rattle.std.specs.Prelude.{◌≡◌};
ghost use Rattle.shares.specs.Told.{shares_told};

use crate::SharesRefusal;
use passes::ratio::Ratio;

// The sum's numerator and denominator, 0 where there is none; and the offset or index that a refusal returns, 0 where there is none.
#[derive(Clone, Copy)]
pub struct CShares {
    pub status: u32,
    pub numerator: u64,
    pub denominator: u64,
    pub at: u64,
}

// The sum, or 02's number of the refusal and its offset or index.
pub fn shares_told(a: Result<Ratio, SharesRefusal>) -> CShares
    ensures { result ≡ shares_told a }
{
    match a {
        Ok(r) => CShares {
            status: 0,
            numerator: r.numerator,
            denominator: r.denominator,
            at: 0,
        },
        Err(SharesRefusal::Above(i)) => CShares {
            status: 11,
            numerator: 0,
            denominator: 0,
            at: i as u64,
        },
        Err(SharesRefusal::Reading(r)) => {
            let t = answers::reading::refusal_told(r);
            CShares {
                status: t.status,
                numerator: 0,
                denominator: 0,
                at: t.at,
            }
        }
    }
}

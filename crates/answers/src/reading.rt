// What C is told of an answer of the reading calls: a status, 0 or the refusal's number, and the numbers that go with it.
ghost use Rattle.std.specs.Prelude.{◌≡◌};
ghost use Rattle.answers.specs.Statuses.{found_at, read_refusal_told, answer_told, written_told, shown_told};

use crate::CStatus;
use paths::{ReadRefusal, Shown};
use text::Offset;

// What C is told of a text shown: its status, offset and length, and 1 where it is a part of the listing.
#[derive(Clone, Copy)]
pub struct CText {
    pub status: u32,
    pub at: u64,
    pub len: u64,
    pub in_listing: u8,
}

// 01's number of a refusal, and the offset that is returned with it, or 0.
pub fn refusal_told(r: ReadRefusal) -> CStatus
    ensures { result ≡ read_refusal_told r }
{
    let (status, at) = match r {
        ReadRefusal::NotUtf8(at) => (2, at.0),
        ReadRefusal::OverLong(at) => (3, at.0),
        ReadRefusal::BadListing(at) => (6, at.0),
        ReadRefusal::ShortOutput => (8, 0),
        ReadRefusal::BadPlace => (9, 0),
    };
    CStatus {
        status,
        at: at as u64,
    }
}

// The offset of an edge; the greatest u64 where there is none.
fn found_at(f: Option<Offset>) -> u64
    ensures { result ≡ found_at f }
{
    match f {
        Some(at) => at.0 as u64,
        None => u64::MAX,
    }
}

// A number that is answered, or the refusal.
fn told(a: Result<u64, ReadRefusal>) -> CStatus
    ensures { result ≡ written_told a }
{
    match a {
        Ok(n) => CStatus { status: 0, at: n },
        Err(r) => refusal_told(r),
    }
}

// A best edge or a neighbour: the offset of the edge, or the refusal.
pub fn answer_told(a: Result<Option<Offset>, ReadRefusal>) -> CStatus
    ensures { result ≡ answer_told a }
{
    told(a.map(found_at))
}

// A path: the bytes of its listing, or the refusal.
pub fn written_told(a: Result<usize, ReadRefusal>) -> CStatus
    ensures { result ≡ written_told a }
{
    told(a.map(|n| n as u64))
}

// A text shown: its part of the listing or of the line, or the refusal.
pub fn shown_told(a: Result<Shown, ReadRefusal>) -> CText
    ensures { result ≡ shown_told a }
{
    match a {
        Ok(Shown::Listing(p)) => CText {
            status: 0,
            at: p.at.0 as u64,
            len: p.len as u64,
            in_listing: 1,
        },
        Ok(Shown::Line(p)) => CText {
            status: 0,
            at: p.at.0 as u64,
            len: p.len as u64,
            in_listing: 0,
        },
        Err(r) => {
            let t = refusal_told(r);
            CText {
                status: t.status,
                at: t.at,
                len: 0,
                in_listing: 0,
            }
        }
    }
}

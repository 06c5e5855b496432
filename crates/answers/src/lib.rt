// What the call answers, 01's numbers of its refusals (01, the table of refusals), and what C is told of an answer.
#![tactic(auto)]

pub mod reading; // reading.rt: the same of the calls that read a listing

ghost use Rattle.std.specs.Prelude.{◌≡◌};
ghost use Rattle.answers.specs.Answers.{of_line, refusal_told, answer_of, told};

use text::{LineRefusal, Offset, Place};

// A refusal of the call: 1 to 8 of 01.
#[derive(Clone, Copy)]
pub enum Refusal {
    ShortWork,
    NotUtf8(Offset),
    OverLong(Offset),
    BadTable(Offset),
    BadContent(Offset),
    BadEdges(Offset),
    AboveTop(Place),
    TooLong,
}

impl From<LineRefusal> for Refusal {
    ghost from_gives = { λ e r. r ≡ of_line e };

    fn from(e: LineRefusal) -> Refusal {
        match e {
            LineRefusal::IllFormed(at) => Refusal::NotUtf8(at),
            LineRefusal::TooLong(at) => Refusal::OverLong(at),
        }
    }
}

// What C is told of an answer: a status, 0 or the refusal's number, and the number that goes with it.
#[derive(Clone, Copy)]
pub struct CStatus {
    pub status: u32,
    pub at: u64,
}

// 01's number of a refusal, and the place or offset that is returned with it, or 0.
pub fn refusal_told(r: Refusal) -> CStatus
    ensures { result ≡ refusal_told r }
{
    let (status, at) = match r {
        Refusal::ShortWork => (1, 0),
        Refusal::NotUtf8(at) => (2, at.0),
        Refusal::OverLong(at) => (3, at.0),
        Refusal::BadTable(at) => (4, at.0),
        Refusal::BadContent(at) => (5, at.0),
        Refusal::BadEdges(at) => (6, at.0),
        Refusal::AboveTop(p) => (7, p.0),
        Refusal::TooLong => (8, 0),
    };
    CStatus {
        status,
        at: at as u64,
    }
}

// 0 and the bytes of the listing, or the refusal.
// Kept beside `reading::told`: the refusals are of two types, and a function generic over them would be longer than both matches.
pub fn answer_told(a: Result<usize, Refusal>) -> CStatus
    ensures { result ≡ told (answer_of a) }
{
    match a {
        Ok(n) => CStatus {
            status: 0,
            at: n as u64,
        },
        Err(r) => refusal_told(r),
    }
}

// Best edges, neighbours and paths over a finished listing (01, "The rest of the call"; the Rust's lattice/paths.rs): what is asked for and what is answered.
// `queries` has the calls.
#![tactic(auto)]

pub mod inside; // inside.rt: refusal 9
pub mod score; // score.rt: the score of an edge
pub mod best; // best.rt: the best of many edges
pub mod walk; // walk.rt: the walk along a path
pub mod check; // check.rt: the checks of a call that reads a listing
pub mod theorems; // theorems.rt: a path's listing, read again, is the path (theorems)

ghost use Rattle.std.specs.Prelude.{◌≡◌};
ghost use Rattle.paths.specs.Reading.{of_line};

use fields::Part;
use text::{LineRefusal, Offset, Place};

// What is asked for: the best edge of a span, the right neighbour of a place, the left neighbour.
#[derive(Clone, Copy)]
pub enum Query {
    Span(Place, Place),
    Right(Place),
    Left(Place),
}

// A refusal of a call that reads a listing: 2, 3, 6, 8 and 9 of 01.
#[derive(Clone, Copy)]
pub enum ReadRefusal {
    NotUtf8(Offset),
    OverLong(Offset),
    BadListing(Offset),
    ShortOutput,
    BadPlace,
}

impl From<LineRefusal> for ReadRefusal {
    ghost from_gives = { λ e r. r ≡ of_line e };

    fn from(e: LineRefusal) -> ReadRefusal {
        match e {
            LineRefusal::IllFormed(at) => ReadRefusal::NotUtf8(at),
            LineRefusal::TooLong(at) => ReadRefusal::OverLong(at),
        }
    }
}

// The text shown at a place: a part of the listing, or a part of the line.
#[derive(Clone, Copy)]
pub enum Shown {
    Listing(Part),
    Line(Part),
}

// The C interface, declared in include/rilvostam.h. Each function is thin: it calls the proved function underneath and tells its answer.
// A skip other than 0 is set; places are 64-bit numbers.
#![tactic(auto)]

pub mod numerals; // numerals.rt: the calls on single numerals
pub mod sheets; // sheets.rt: the proof sheet of short numerals (02, S-8)
pub mod pooling; // pooling.rt: what a listing's shares come to
pub mod nearest; // nearest.rt: the number nearest to a place (02, S-14)
pub mod edges; // edges.rt: the edge at an offset of a listing
pub mod checks; // checks.rt: the check of a table
pub mod without_singles; // without_singles.rt: the numbers of a line, without singles that may not stand (02, S-12)
pub mod depths; // depths.rt: the numbers of a line, with decimals (02, S-13)
pub mod registers; // registers.rt: the numbers of many lines, by pages
pub mod tables; // tables.rt: the plain and the formal table
pub mod version; // version.rt: the version of the library

ghost use Rattle.std.specs.Prelude.{◌≡◌, length};
ghost use Rattle.numbers.specs.Call.{add_numbers, out_after};
ghost use Rattle.paths.specs.declared.Query.TheVariants.{Span, Right, Left};
ghost use Rattle.paths.specs.Reading.{answer};
ghost use Rattle.paths.specs.Shown.{shown};
ghost use Rattle.paths.specs.Path.{path_out, written, after};
ghost use Rattle.answers.specs.Statuses.{answer_told, written_told, shown_told};
ghost use Rattle.rilvostam.specs.Exported.{place_of, is_set, call_told};

use paths::Query;
use text::Place;

// The written numbers of a line as a listing of edges, behind those given.
pub fn rilvostam_add_numbers(
    line: &[u8],
    table: &[u8],
    edges: &[u8],
    work: &mut [u8],
    out: &mut [u8],
    at: &mut u64,
) -> u32
    ensures status { result ≡ (call_told (add_numbers line.now table.now edges.now
        (length work.old) (length out.old))).status }
    ensures place { at.new ≡ (call_told
        (add_numbers line.now table.now edges.now (length work.old)
        (length out.old))).at }
    ensures output { out.new
        ≡ out_after out.old (add_numbers line.now table.now edges.now
        (length work.old) (length out.old)) }
{
    let numbers = answers::answer_told(call::add_numbers(line, table, edges, work, out));
    *at = numbers.at;
    numbers.status
}

// The best edge of a span.
pub fn rilvostam_best_edge(
    line: &[u8],
    listing: &[u8],
    start: u64,
    end: u64,
    skip: u8,
    at: &mut u64,
) -> u32
    ensures status { result ≡ (answer_told (answer line.now listing.now
        (Span (place_of start) (place_of end)) (is_set skip))).status }
    ensures place { at.new ≡ (answer_told
        (answer line.now listing.now (Span (place_of start) (place_of end)) (is_set skip))).at }
{
    let q = Query::Span(Place(start as usize), Place(end as usize));
    let best = answers::reading::answer_told(queries::best_edge(line, listing, q, skip != 0));
    *at = best.at;
    best.status
}

// The right neighbour of a place.
pub fn rilvostam_right_neighbor(
    line: &[u8],
    listing: &[u8],
    place: u64,
    skip: u8,
    at: &mut u64,
) -> u32
    ensures status { result ≡ (answer_told (answer line.now listing.now (Right (place_of place))
        (is_set skip))).status }
    ensures place { at.new ≡ (answer_told
        (answer line.now listing.now (Right (place_of place)) (is_set skip))).at }
{
    let q = Query::Right(Place(place as usize));
    let right = answers::reading::answer_told(queries::best_edge(line, listing, q, skip != 0));
    *at = right.at;
    right.status
}

// The left neighbour of a place.
pub fn rilvostam_left_neighbor(
    line: &[u8],
    listing: &[u8],
    place: u64,
    skip: u8,
    at: &mut u64,
) -> u32
    ensures status { result ≡ (answer_told (answer line.now listing.now (Left (place_of place))
        (is_set skip))).status }
    ensures place { at.new ≡ (answer_told
        (answer line.now listing.now (Left (place_of place)) (is_set skip))).at }
{
    let q = Query::Left(Place(place as usize));
    let left = answers::reading::answer_told(queries::best_edge(line, listing, q, skip != 0));
    *at = left.at;
    left.status
}

// The path from start to end, written to the output as a listing.
pub fn rilvostam_path(
    line: &[u8],
    listing: &[u8],
    start: u64,
    end: u64,
    skip: u8,
    out: &mut [u8],
    at: &mut u64,
) -> u32
    ensures status { result ≡ (written_told
        (written (path_out line.now listing.now (place_of start) (place_of end) (is_set skip)
        (length out.old)))).status }
    ensures place { at.new ≡ (written_told
        (written (path_out line.now listing.now (place_of start) (place_of end) (is_set skip)
        (length out.old)))).at }
    ensures output { out.new
        ≡ after out.old (path_out line.now listing.now (place_of start) (place_of end)
        (is_set skip) (length out.old)) }
{
    let from = Place(start as usize);
    let to = Place(end as usize);
    let path = answers::reading::written_told(queries::path::path(
        line,
        listing,
        from,
        to,
        skip != 0,
        out,
    ));
    *at = path.at;
    path.status
}

// The text shown at a place: its offset and length, in the listing or in the line.
pub fn rilvostam_shown_text(
    line: &[u8],
    listing: &[u8],
    place: u64,
    at: &mut u64,
    len: &mut u64,
    within: &mut u8,
) -> u32
    ensures status { result ≡ (shown_told (shown line.now listing.now (place_of place))).status }
    ensures place { at.new ≡ (shown_told
        (shown line.now listing.now (place_of place))).at }
    ensures len { len.new ≡ (shown_told
        (shown line.now listing.now (place_of place))).len }
    ensures within { within.new
        ≡ (shown_told (shown line.now listing.now (place_of place))).in_listing }
{
    let text = answers::reading::shown_told(queries::shown::shown_text(
        line,
        listing,
        Place(place as usize),
    ));
    *at = text.at;
    *len = text.len;
    *within = text.in_listing;
    text.status
}

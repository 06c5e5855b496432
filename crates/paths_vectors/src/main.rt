// Reads three listings written by hand, and four of one edge for its count of decimals, over the line ab五. `stdout` has the answers, worked out by hand from 01 and 02 (S-5).
#![tactic(auto)]

use answers::CStatus;
use paths::{Query, ReadRefusal, Shown};
use text::Place;

// An answer by what C is told of it: its status, and the number that goes with it.
fn show(word: &[u8], t: CStatus) {
    if t.status > 0 {
        vectors::refused(t.status as u64, t.at);
    } else if t.at == 18446744073709551615 {
        io::write_all(1, b"none");
    } else {
        vectors::say(word, t.at);
    }
}

fn ask(line: &[u8], listing: &[u8], q: Query, skip: bool) {
    show(
        b"at ",
        answers::reading::answer_told(queries::best_edge(line, listing, q, skip)),
    );
    io::write_all(1, b"\n");
}

fn best(line: &[u8], listing: &[u8], start: Place, end: Place, skip: bool) {
    ask(line, listing, Query::Span(start, end), skip);
}

fn right(line: &[u8], listing: &[u8], place: Place, skip: bool) {
    ask(line, listing, Query::Right(place), skip);
}

fn left(line: &[u8], listing: &[u8], place: Place, skip: bool) {
    ask(line, listing, Query::Left(place), skip);
}

// Which of the two a text shown is in; no text goes with a refusal.
fn show_part(w: Result<Shown, ReadRefusal>) {
    match w {
        Ok(Shown::Listing(_)) => {
            io::write_all(1, b"listing ");
        }
        Ok(Shown::Line(_)) => {
            io::write_all(1, b"line ");
        }
        Err(_) => {
            let t = answers::reading::shown_told(w);
            show(
                b"",
                CStatus {
                    status: t.status,
                    at: t.at,
                },
            );
        }
    }
}

fn shown<'a>(line: &'a [u8], listing: &'a [u8], place: Place) {
    let w = queries::shown::shown_text(line, listing, place);
    show_part(w);
    io::write_all(1, queries::shown_part::shown_part(line, listing, w));
    io::write_all(1, b"\n");
}

fn path(line: &[u8], listing: &[u8], start: Place, end: Place, skip: bool, out: &mut [u8]) {
    let w = queries::path::path(line, listing, start, end, skip, out);
    show(b"bytes ", answers::reading::written_told(w));
    io::write_all(1, b"\n");
}

// Paths into an output of 64 bytes.
fn paths(line: &[u8], listing: &[u8]) {
    let mut out = [0u8; 64];
    path(line, listing, Place(0), Place(3), false, &mut out);
    path(line, listing, Place(0), Place(1), false, &mut out);
    path(line, listing, Place(0), Place(3), true, &mut out);
    path(line, listing, Place(1), Place(3), false, &mut out);
}

// An output just long enough: the listing written is read again. One that is a byte too short stays as it was.
fn exact(line: &[u8], listing: &[u8]) {
    let mut out = [7u8; 16];
    path(line, listing, Place(0), Place(3), true, &mut out);
    best(line, &out, Place(0), Place(2), false);
    let mut short = [7u8; 15];
    path(line, listing, Place(0), Place(3), true, &mut short);
    if short[0] == 7 {
        io::write_all(1, b"untouched\n");
    }
}

// A path of no place is a listing of no edge, two bytes.
fn no_place(line: &[u8], listing: &[u8]) {
    let mut out = [7u8; 2];
    path(line, listing, Place(2), Place(2), false, &mut out);
    right(line, &out, Place(0), false);
    let mut short = [7u8; 1];
    path(line, listing, Place(2), Place(2), false, &mut short);
}

// The refusals in their order: 2, 3, 6, then 9.
fn refusals(line: &[u8], listing: &[u8]) {
    let long = [97u8; 257];
    let ab: &[u8] = b"ab";
    best(b"a\xff", listing, Place(9), Place(0), false);
    best(&long, listing, Place(9), Place(0), false);
    best(ab, b"\x01\x00", Place(9), Place(0), false);
    best(ab, listing, Place(0), Place(2), false);
    best(line, listing, Place(2), Place(1), false);
    best(line, listing, Place(0), Place(4), false);
}

fn all<'a>(line: &'a [u8], listing: &'a [u8]) {
    best(line, listing, Place(0), Place(2), false);
    best(line, listing, Place(0), Place(2), true);
    best(line, listing, Place(0), Place(3), true);
    best(line, listing, Place(1), Place(1), false);
    right(line, listing, Place(0), false);
    right(line, listing, Place(0), true);
    right(line, listing, Place(3), false);
    right(line, listing, Place(4), false);
    left(line, listing, Place(2), false);
    left(line, listing, Place(3), false);
    left(line, listing, Place(3), true);
    left(line, listing, Place(0), false);
    shown(line, listing, Place(0));
    shown(line, listing, Place(1));
    shown(line, listing, Place(2));
    shown(line, listing, Place(3));
    paths(line, listing);
    exact(line, listing);
    no_place(line, listing);
    refusals(line, listing);
}

// A path into an output just long enough, and what its listing shows.
fn shown_along(line: &[u8], listing: &[u8]) {
    let mut out = [0u8; 32];
    path(line, listing, Place(0), Place(3), false, &mut out);
    shown(line, &out, Place(0));
    shown(line, &out, Place(2));
}

// Several edges of each class: the first of its class in listing order is given.
fn several<'a>(line: &'a [u8], listing: &'a [u8]) {
    best(line, listing, Place(0), Place(2), false);
    best(line, listing, Place(0), Place(2), true);
    best(line, listing, Place(0), Place(1), false);
    best(line, listing, Place(1), Place(2), false);
    best(line, listing, Place(2), Place(3), false);
    best(line, listing, Place(2), Place(3), true);
    right(line, listing, Place(0), false);
    right(line, listing, Place(0), true);
    left(line, listing, Place(2), false);
    left(line, listing, Place(3), false);
    shown(line, listing, Place(0));
    shown(line, listing, Place(1));
    shown(line, listing, Place(2));
    shown_along(line, listing);
}

// The path has the bytes of both edges, and its listing shows the same.
fn decimals_along(line: &[u8], listing: &[u8]) {
    let mut out = [0u8; 34];
    path(line, listing, Place(0), Place(3), false, &mut out);
    shown(line, &out, Place(2));
    shown(line, &out, Place(0));
}

// One edge with decimals over ab, txt 1.5, and a regular one over 五: both are read.
fn decimals<'a>(line: &'a [u8], listing: &'a [u8]) {
    best(line, listing, Place(0), Place(2), false);
    left(line, listing, Place(3), false);
    shown(line, listing, Place(0));
    decimals_along(line, listing);
}

// A count of 15 decimals is read, and a refusal comes for 0, for 16 and for bit 10.
fn counts(line: &[u8]) {
    best(
        line,
        b"\x01\x00\x81\x02\x00\x00\x02\x00\x00\x00\x00\x00\x00\x00\x0f",
        Place(0),
        Place(2),
        false,
    );
    best(
        line,
        b"\x01\x00\x81\x02\x00\x00\x02\x00\x00\x00\x00\x00\x00\x00\x00",
        Place(0),
        Place(2),
        false,
    );
    best(
        line,
        b"\x01\x00\x81\x02\x00\x00\x02\x00\x00\x00\x00\x00\x00\x00\x10",
        Place(0),
        Place(2),
        false,
    );
    best(
        line,
        b"\x01\x00\x81\x04\x00\x00\x02\x00\x00\x00\x00\x00\x00\x00",
        Place(0),
        Place(2),
        false,
    );
}

// The first listing has eight edges. Over ab: "x", "rom decomp", "num" and "romdecomp", regular; D1, inactive; G1, active. Over the line: G4, inactive. Over b: "Rom", regular.
// The second has fourteen, the worse classes first. Over ab: D1, inactive; "x"; "num", then "rom"; G1, then G2, active. Over a: "x"; "rom decomp" twice. Over b: D1,
// inactive; "y", then "x". Over 五: G1 twice, inactive.
fn main() {
    all(
        b"ab\xe4\xba\x94",
        b"\x08\x00\x00\x00\x00\x00\x02\x00\x01\x00x\x01\x00q\x00\x00\x00\x00\x02\x00\x0a\x00rom decomp\x01\x00d\x00\x00\x00\x00\x02\x00\x03\x00num\x01\x00n\x00\x00\x00\x00\x02\x00\x09\x00romdecomp\x01\x00r\x01\x00\x00\x00\x02\x00\x02\x00D1\x01\x001\x02\x00ab\x81\x00\x00\x00\x02\x00\x02\x00G1\x01\x002\x02\x00ab\x01\x00\x00\x00\x03\x00\x02\x00G4\x02\x0030\x05\x00ab\xe4\xba\x94\x00\x00\x01\x00\x02\x00\x03\x00Rom\x01\x00o",
    );
    several(
        b"ab\xe4\xba\x94",
        b"\x0e\x00\x01\x00\x00\x00\x02\x00\x02\x00D1\x01\x00i\x00\x00\x00\x00\x00\x00\x02\x00\x01\x00x\x01\x00o\x00\x00\x00\x00\x02\x00\x03\x00num\x01\x00n\x00\x00\x00\x00\x02\x00\x03\x00rom\x01\x00r\x81\x00\x00\x00\x02\x00\x02\x00G1\x01\x001\x00\x00\x81\x00\x00\x00\x02\x00\x02\x00G2\x01\x002\x00\x00\x00\x00\x00\x00\x01\x00\x01\x00x\x01\x00o\x00\x00\x00\x00\x01\x00\x0a\x00rom decomp\x01\x00d\x00\x00\x00\x00\x01\x00\x0a\x00rom decomp\x01\x00e\x01\x00\x01\x00\x02\x00\x02\x00D1\x01\x00i\x00\x00\x00\x00\x01\x00\x02\x00\x01\x00y\x01\x00y\x00\x00\x01\x00\x02\x00\x01\x00x\x01\x00x\x01\x00\x02\x00\x03\x00\x02\x00G1\x01\x003\x00\x00\x01\x00\x02\x00\x03\x00\x02\x00G1\x01\x004\x00\x00",
    );
    decimals(
        b"ab\xe4\xba\x94",
        b"\x02\x00\x81\x02\x00\x00\x02\x00\x02\x00D1\x03\x001.5\x02\x00ab\x01\x00\x00\x02\x00\x03\x00\x01\x00x\x01\x00y",
    );
    counts(b"ab\xe4\xba\x94");
}

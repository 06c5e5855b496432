// The rows that the program prints for the edges of a listing, as text in a lent buffer. The words of the contracts are in specs/Rows.antt.
#![tactic(auto)]

pub mod columns; // columns.rt: a column of a row
pub mod listing; // listing.rt: the rows of a listing
pub mod refusal; // refusal.rt: the row of a refusal

ghost use Rattle.std.specs.Prelude.{◌≡◌, ◌+◌, ◌≤◌, length};
ghost use Rattle.edge.specs.Layout.{next_at, edge_at};
ghost use Rattle.fields.specs.Part.{part_of};
ghost use Rattle.edge.specs.Write.{Put};
ghost use Rattle.rows.specs.Columns.{ended};
ghost use Rattle.rows.specs.Rows.{row_bytes, view_mark, view_row};

use edge::{EdgeView, bits};
use fields::Part;

// A part of a slice and the byte that ends it.
fn put_part(out: &mut [u8], at: usize, s: &[u8], t: Part, by: u8) -> usize
    requires { (at + t.len + 1 ≤ length out.old) × (t.at.0 + t.len ≤ length s.now) }
    ensures { Put out.old out.new at result (ended (part_of s.now t) by) }
{
    let from = t.at.0;
    let to = from + t.len;
    crate::columns::put_text(out, at, &s[from..to], by)
}

// 1, 0 or - for a map: active, inactive, regular.
fn mark(map: u16) -> u8
    ensures { result ≡ view_mark map }
{
    if !edge::bit(map, bits::NUMERIC) {
        return b'-';
    }
    if edge::bit(map, bits::ACTIVE) {
        b'1'
    } else {
        b'0'
    }
}

// The row of an edge, for which there is room.
fn put_columns(out: &mut [u8], at: usize, s: &[u8], e: EdgeView) -> usize
    requires { (at + length (view_row s.now e) ≤ length out.old) × (e.ty.at.0 + e.ty.len ≤ length s.now)
        × (e.txt.at.0 + e.txt.len ≤ length s.now) }
    ensures { Put out.old out.new at result (view_row s.now e) }
{
    let end = crate::columns::put_number(out, at, e.start.0 as u64, b'\t');
    let ty = crate::columns::put_number(out, end, e.end.0 as u64, b'\t');
    let txt = put_part(out, ty, s, e.ty, b'\t');
    let last = put_part(out, txt, s, e.txt, b'\t');
    let word = [mark(e.map)];
    crate::columns::put_text(out, last, &word, b'\n')
}

// The row of the edge at an offset of a listing, for which there is room.
pub fn put_row(out: &mut [u8], at: usize, listing: &[u8], from: usize) -> usize
    requires { (next_at listing.now from ≤ length listing.now)
        × (at + length (row_bytes (edge_at listing.now from)) ≤ length out.old) }
    ensures { Put out.old out.new at result (row_bytes (edge_at listing.now from)) }
{
    let e = edge::head::edge_at(listing, from);
    put_columns(out, at, listing, e)
}

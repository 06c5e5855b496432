// A proof sheet of short numerals (02, S-8), by pages from any position on: `page` of specs/Sheet.antt. Nothing of the sheet is stored: its words are tried one by
// one, from the page's first on, and a table of counts says where that is.
#![tactic(auto)]

pub mod candidates; // candidates.rt: the words of one to four characters by number, and whether one has a row
pub mod first; // first.rt: the candidate where the rows from a position on begin

ghost use Rattle.std.specs.Prelude.{◌≡◌, ◌≤◌, length};
ghost use Rattle.sheet.specs.Answer.{answer, output};
ghost use Rattle.sheet.specs.Walk.{rows_from, Fills};

use crate::candidates::{COUNT, try_candidate};
use crate::first::first_candidate;

// How many bytes and rows were written.
#[derive(Clone, Copy)]
pub struct Filled {
    pub bytes: usize,
    pub rows: u64,
}

// What asking for a page answers: how many bytes were written, and the position after the page. Nothing is refused.
#[derive(Clone, Copy)]
pub struct Page {
    pub bytes: usize,
    pub next: u64,
}

// Rows from a candidate on, as many as fit.
fn fill(out: &mut [u8], from: usize) -> Filled
    requires { from ≤ 69904 }
    ensures { Fills (rows_from from) out.old out.new result.bytes result.rows }
{
    let mut buf = [0u8; 12];
    let mut at = 0;
    let mut rows: u64 = 0;
    for index in from..COUNT {
        let Some((len, value)) = try_candidate(&mut buf, index) else {
            continue;
        };
        if out.len() - at < sheet_rows::row_len(len, value) {
            return Filled { bytes: at, rows };
        }
        at = sheet_rows::put_row(out, at, &buf[..len], value);
        rows += 1;
    }
    Filled { bytes: at, rows }
}

// The page from a position on, at the front of the output.
pub fn proof_sheet(position: u64, out: &mut [u8]) -> Page
    ensures answer { result ≡ answer position (length out.old) }
    ensures after { out.new ≡ output position out.old }
{
    let from = first_candidate(position);
    let filled = fill(out, from);
    Page {
        bytes: filled.bytes,
        next: position + filled.rows,
    }
}

// The candidate where the rows from a position on begin. `sheet_counts` says how many rows stand in each 1,024 candidates, so that at most so many are tried.
ghost use Rattle.std.specs.Prelude.{◌≤◌};
ghost use Rattle.sheet.specs.Walk.{At, PassedIs};

use crate::candidates::{COUNT, try_candidate};
use sheet_counts::{BLOCK, BLOCKS, SHORT, SHORT_ROWS};

// So many candidates are passed, with so many rows.
#[derive(Clone, Copy)]
pub struct Passed {
    pub index: usize,
    pub rows: u64,
}

// Passes blocks that end at or before a position.
fn pass_blocks(position: u64) -> Passed
    ensures { PassedIs position result.index result.rows }
{
    if position < SHORT_ROWS {
        return Passed { index: 0, rows: 0 };
    }
    let mut index = SHORT;
    let mut rows = SHORT_ROWS;
    for block in 0..BLOCKS {
        let n = sheet_counts::rows_in(block);
        if position - rows < n {
            return Passed { index, rows };
        }
        index += BLOCK;
        rows += n;
    }
    Passed { index, rows }
}

// A candidate from which on the rows are those from a position on; past the last row, the end of the candidates.
pub fn first_candidate(position: u64) -> usize
    ensures { (result ≤ 69904) × At result position }
{
    let passed = pass_blocks(position);
    let mut buf = [0u8; 12];
    let mut rows = passed.rows;
    for index in passed.index..COUNT {
        if rows == position {
            return index;
        }
        if try_candidate(&mut buf, index).is_some() {
            rows += 1;
        }
    }
    COUNT
}

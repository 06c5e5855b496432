// The record of a character, and where it stands. Records have no fixed size, so an index keeps the offset of every stride-th one, INDEX_SIZE at most.
// Behind them stands a filter (`table::filter`), by which most characters without a record are told. The check of the table makes both in its own walk. The cost: for each character at most nine looks into the index and stride records, a 256th of all. So the
// 256 characters of the longest line cost about one walk more, and not a walk each. For a table of up to 255 records the stride is 1.
ghost use Rattle.std.specs.Prelude.{◌≡◌, List, ℕ, ◌-◌, ◌*◌, ◌<◌, length};
ghost use Rattle.table.specs.Table.{Record, find, is_none};
ghost use Rattle.table.specs.Layout.{records_at};
ghost use Rattle.table.specs.Filter.{mark, index_size};
ghost use Rattle.table.specs.Index.{FoundIs, Entry, stride_of, Entered, Indexed, IndexGrowing, Whole, RecordsAhead};

use crate::filter::may_have;
use crate::layout::NumProp;
use crate::record::known::record_here;
use crate::record::walk::record_end;

// The most entries of an index.
pub const MOST_ENTRIES: usize = 256;

// The words of an index: its entries, then 256 of the filter.
pub const INDEX_SIZE: usize = 512;

// The records from an offset on, so many.
#[derive(Clone, Copy)]
pub struct RecordRun {
    pub at: usize,
    pub left: usize,
}

// An index that is being made: its length, and how many records are left at its next entry.
#[derive(Clone, Copy)]
pub struct Index {
    pub n: usize,
    pub due: usize,
}

// The record of a character, by a walk that ends at the first code point above it. Only the character's own record is read whole.
fn find_from(table: &[u8], from: RecordRun, c: u32) -> Option<(NumProp, usize)>
    requires { Whole table.now from.at from.left }
    ensures { FoundIs table.now (records_at from.left table.now from.at) c result }
{
    let mut at = from.at;
    for _ in 0..from.left {
        let code = fields::u32_at(table, at);
        if code == c {
            return Some((record_here(table, at), at));
        }
        if c < code {
            return None;
        }
        at = record_end(table, at);
    }
    None
}

// How many records there are from one entry of the index to the next, for n records.
fn stride_of(n: usize) -> usize
    ensures { result ≡ stride_of n }
{
    1 + n / MOST_ENTRIES
}

// Takes a record into the index over so many records, where it is its turn. An offset that takes more than 32 bits ends the index.
pub fn index_record(offs: &mut [u32], index: Index, all: usize, here: RecordRun) -> Index
    requires { (index.due ≡ all - index.n * stride_of all) × (0 < here.left) × (length offs.old ≡ index_size) }
    ensures next { result.due ≡ all - result.n * stride_of all }
    ensures grows { (t : List ℕ) (rs : List Record) → Entry t rs here.at here.left
        → IndexGrowing t rs offs.old all index → IndexGrowing t rs offs.new all result }
    ensures marks { (c : ℕ) → mark offs.new c ≡ mark offs.old c }
{
    if here.left != index.due {
        return index;
    }
    let Ok(at) = u32::try_from(here.at) else {
        return index;
    };
    offs[index.n] = at;
    Index {
        n: index.n + 1,
        due: here.left.saturating_sub(stride_of(all)),
    }
}

// From where to look for a character: the last record of the index that is not above it, by halving; all records where there is none.
fn nearest_entry(
    table: &[u8],
    all: RecordRun,
    offs: &[u32; INDEX_SIZE],
    n: usize,
    c: u32,
) -> RecordRun
    requires { Whole table.now all.at all.left
        × Entered table.now (records_at all.left table.now all.at) offs.now all.left n }
    ensures { RecordsAhead table.now (records_at all.left table.now all.at) c result.at
        result.left }
{
    let stride = stride_of(all.left);
    let mut from = all;
    let mut lo: usize = 0;
    let mut hi = n;
    // Kept as a loop: `partition_point` wants a test that takes any offset, and reading the table asks that a record stands there.
    while lo < hi {
        let mid = lo + (hi - lo) / 2;
        let at = offs[mid] as usize;
        if fields::u32_at(table, at) <= c {
            from = RecordRun {
                at: at,
                left: all.left - mid * stride,
            };
            lo = mid + 1;
        } else {
            hi = mid;
        }
    }
    from
}

// The record of a character among all records, whose index has n entries. The filter is asked first.
// Kept as parameters: `first_stages` has the four apart, so a struct of them would be made for each call and taken apart in it.
pub fn find_char(
    table: &[u8],
    all: RecordRun,
    offs: &[u32; INDEX_SIZE],
    n: usize,
    c: u32,
) -> Option<(NumProp, usize)>
    requires { Whole table.now all.at all.left
        × Indexed table.now (records_at all.left table.now all.at) offs.now all.left n }
    ensures { FoundIs table.now (records_at all.left table.now all.at) c result }
{
    if !may_have(offs, c) {
        return None;
    }
    let from = nearest_entry(table, all, offs, n, c);
    find_from(table, from, c)
}

// Whether a character has no record among all. For a caller who asked the filter: apart from that, so that what the search is handed is put into
// memory only for the few characters that are searched for.
pub fn is_absent(table: &[u8], all: RecordRun, offs: &[u32; INDEX_SIZE], n: usize, c: u32) -> bool
    requires { Whole table.now all.at all.left
        × Indexed table.now (records_at all.left table.now all.at) offs.now all.left n }
    ensures { result ≡ is_none (find (records_at all.left table.now all.at) c) }
{
    let from = nearest_entry(table, all, offs, n, c);
    find_from(table, from, c).is_none()
}

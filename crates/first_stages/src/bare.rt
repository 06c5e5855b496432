// Whether a line has a character that a stage adds an edge for: one with a record, or an ASCII digit. Most lines of a register have none, and are answered without a lattice.
ghost use Rattle.std.specs.Prelude.{◌≡◌, true, ℕ};
ghost use Rattle.text.specs.Text.{chars, well_formed};
ghost use Rattle.table.specs.Answers.{table_of};
ghost use Rattle.table.specs.Index.{Whole, Indexed};
ghost use Rattle.table_check.specs.Indexed.{RecordIndex};
ghost use Rattle.numbers.specs.Ready.{Ready};
ghost use Rattle.characters.specs.Initial.{records_in};
ghost use Rattle.first_stages.specs.Bare.{bare_char, bare};

use table::filter::may_have;
use table::index::{INDEX_SIZE, RecordRun, is_absent};
use table::shape::Shape;
use text::Offset;

fn bare_char(
    table: &[u8],
    all: RecordRun,
    index: &[u32; INDEX_SIZE],
    entries: usize,
    code: u32,
) -> bool
    requires { Whole table.now all.at all.left
        × Indexed table.now (records_in table.now all) index.now all.left entries }
    ensures { result ≡ bare_char (records_in table.now all) code }
{
    if (48 <= code) & (code <= 57) {
        return false;
    }
    // most characters end here
    if !may_have(index, code) {
        return true;
    }
    is_absent(table, all, index, entries, code)
}

// The characters of a well-formed line one after the other.
fn all_bare(
    line: &[u8],
    table: &[u8],
    all: RecordRun,
    index: &[u32; INDEX_SIZE],
    entries: usize,
) -> bool
    requires { (well_formed line.now ≡ true) × Whole table.now all.at all.left
        × Indexed table.now (records_in table.now all) index.now all.left entries }
    ensures { result ≡ bare (records_in table.now all) (chars line.now) }
{
    let mut at: usize = 0;
    while at < line.len() {
        let c = text::known::char_at(line, Offset(at));
        if !bare_char(table, all, index, entries, c.code) {
            return false;
        }
        at += c.len;
    }
    true
}

// Whether no character of the line has a record or is an ASCII digit. index is that over the table's records.
pub fn is_bare(
    line: &[u8],
    table: &[u8],
    shape: Shape,
    index: &[u32; INDEX_SIZE],
    entries: usize,
) -> bool
    requires { ((n : ℕ) × Ready line.now table.now shape n)
        × RecordIndex table.now shape index.now entries }
    ensures { result ≡ bare (table_of table.now shape).records (chars line.now) }
{
    // the table begins with the count of its records
    let count = fields::u16_at(table, 0) as usize;
    let all = RecordRun {
        at: shape.records,
        left: count,
    };
    all_bare(line, table, all, index, entries)
}

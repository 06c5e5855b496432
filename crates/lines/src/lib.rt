// The numbers of many lines with one table, by pages: an entry for each line, which is what `add_numbers` answers for it (specs/Lines.antt, specs/Pages.antt). The table is checked once.
#![tactic(auto)]

pub mod next_line; // next_line.rt: where a line ends
pub mod answer; // answer.rt: what the call answers for one line, its listing left in the work space
pub mod entry; // entry.rt: the entry of a line, put into the output
pub mod told; // told.rt: what C is told of the answer

ghost use Rattle.std.specs.Prelude.{◌≡◌, ◌≤◌, length};
ghost use Rattle.numbers.specs.Ready.{work_size};
ghost use Rattle.lines.specs.Pages.{entries_of, add_numbers_to_lines, out_after};
ghost use Rattle.lines.specs.Steps.{TableReady, Fills};
ghost use Rattle.lines.specs.Told.{lines_told, answer_told};

use crate::entry::add_entry;
use crate::next_line::line_at;
use answers::Refusal;
use call::WORK_SIZE;
use call::checks::of_table;
use table::index::INDEX_SIZE;
use table::shape::Shape;

// A page: how many bytes were written, and the offset behind the last line answered.
#[derive(Clone, Copy)]
pub struct Page {
    pub bytes: usize,
    pub next: usize,
}

// Entries of the lines, from the first on, as many as fit.
fn fill(
    out: &mut [u8],
    work: &mut [u8],
    lines: &[u8],
    table: &[u8],
    shape: Shape,
    index: &[u32; INDEX_SIZE],
    entries: usize,
) -> Page
    requires { (work_size ≤ length work.old) × TableReady table.now shape index.now entries }
    ensures { Fills (entries_of table.now lines.now) out.old
        out.new result }
{
    let mut at = 0;
    let mut next = 0;
    // Kept as a while loop: the step is the length of the line, which no iterator of std gives.
    while next < lines.len() {
        let l = line_at(lines, next);
        let line = &lines[next..l.end];
        let Some(to) = add_entry(out, at, work, line, table, shape, index, entries) else {
            break;
        };
        at = to;
        next = l.next;
    }
    Page { bytes: at, next }
}

// The numbers of the lines, a page of them.
pub fn add_numbers_to_lines(
    lines: &[u8],
    table: &[u8],
    work: &mut [u8],
    out: &mut [u8],
) -> Result<Page, Refusal>
    ensures answer { answer_told result ≡ lines_told (add_numbers_to_lines lines.now table.now
        (length work.old) (length out.old)) }
    ensures output { out.new
        ≡ out_after out.old (add_numbers_to_lines lines.now table.now
        (length work.old) (length out.old)) }
{
    if work.len() < WORK_SIZE {
        return Err(Refusal::ShortWork);
    }
    let mut index = [0u32; INDEX_SIZE];
    let mut entries: usize = 0;
    let shape = table_check::check_table(table, &mut index, &mut entries).map_err(of_table)?;
    Ok(fill(out, work, lines, table, shape, &index, entries))
}

// The entry of a line: the status of its answer, the number that goes with it, and the bytes of the listing where there is one.
ghost use Rattle.std.specs.Prelude.{◌≡◌, ◌+◌, ◌≤◌, length};
ghost use Rattle.std.proofs.lemmas.List.Edits.{sets};
ghost use Rattle.numbers.specs.Ready.{work_size};
ghost use Rattle.lines.specs.Pages.{answer_for, status_bytes, entry_bytes};
ghost use Rattle.lines.specs.Steps.{TableReady, EntryIs};

use answers::CStatus;
use table::index::INDEX_SIZE;
use table::shape::Shape;

// The bytes of an entry before its listing.
const HEAD: usize = 12;

// Status and number.
fn put_status(out: &mut [u8], at: usize, told: CStatus)
    requires { at + 12 ≤ length out.old }
    ensures { out.new ≡ sets out.old at (status_bytes told) }
{
    let status = told.status;
    fields::write::put_u16(out, at, (status % 65536) as u16);
    fields::write::put_u16(out, at + 2, (status / 65536) as u16);
    fields::write::put_u64(out, at + 4, told.at);
}

// The entry of a line, where it fits from an offset on; else the output is as it was.
pub fn add_entry(
    out: &mut [u8],
    at: usize,
    work: &mut [u8],
    line: &[u8],
    table: &[u8],
    shape: Shape,
    index: &[u32; INDEX_SIZE],
    entries: usize,
) -> Option<usize>
    requires { (at ≤ length out.old) × (work_size ≤ length work.old)
        × TableReady table.now shape index.now entries }
    ensures { EntryIs out.old out.new at
        (entry_bytes (answer_for table.now line.now)) result }
{
    let answer = crate::answer::answer_line(work, line, table, shape, index, entries);
    let len = answer.unwrap_or(0);
    if out.len() - at < HEAD + len {
        return None;
    }
    put_status(out, at, answers::answer_told(answer));
    fields::copy::copy_in(out, at + HEAD, &work[..len]);
    Some(at + HEAD + len)
}

// What `add_numbers` answers for one line with a table that was checked before, without given edges and with room for any listing. Its listing is left at the front of the work space.
ghost use Rattle.std.specs.Prelude.{false, List, ℕ, ◌≤◌, length};
ghost use Rattle.text.specs.Text.{chars};
ghost use Rattle.table.specs.Answers.{table_of};
ghost use Rattle.edge.specs.Edge.{Edge};
ghost use Rattle.edge.specs.Layout.{listed};
ghost use Rattle.table_check.specs.Indexed.{RecordIndex};
ghost use Rattle.lattice.specs.Lattice.{most_bytes};
ghost use Rattle.lattice.specs.Kept.{Holds};
ghost use Rattle.numbers.specs.Ready.{Ready, work_size};
ghost use Rattle.numbers.specs.Call.{finished, after_checks, no_edges};
ghost use Rattle.lines.specs.Pages.{answer_for};
ghost use Rattle.lines.specs.Steps.{TableReady, Left};

use answers::Refusal;
use call::stages::CallKind;
use lattice::Lattice;
use table::index::INDEX_SIZE;
use table::shape::Shape;

// The answer for a finished lattice.
fn finished_answer(lattice: Lattice) -> Result<usize, Refusal>
    ensures { (u : List ℕ) (es : List Edge) → Holds u lattice es → Left u result (finished most_bytes es) }
{
    if lattice.len == 0 {
        return Err(Refusal::TooLong);
    }
    Ok(lattice.len)
}

// The stages of the call, for a line of so many characters.
fn stages_answer(
    work: &mut [u8],
    line: &[u8],
    places: usize,
    table: &[u8],
    shape: Shape,
    index: &[u32; INDEX_SIZE],
    entries: usize,
) -> Result<usize, Refusal>
    requires { (work_size ≤ length work.old) × Ready line.now table.now shape places
        × RecordIndex table.now shape index.now entries }
    ensures { Left work.new result (after_checks false (table_of table.now shape)
        (chars line.now) most_bytes (listed no_edges)) }
{
    let none = [0u8; 2];
    let lattice = call::stages::run_stages(
        work,
        line,
        table,
        shape,
        places,
        &none,
        0,
        index,
        entries,
        CallKind::First,
    )
    .map_err(Refusal::AboveTop)?;
    finished_answer(lattice)
}

// The answer for any line.
pub fn answer_line(
    work: &mut [u8],
    line: &[u8],
    table: &[u8],
    shape: Shape,
    index: &[u32; INDEX_SIZE],
    entries: usize,
) -> Result<usize, Refusal>
    requires { (work_size ≤ length work.old) × TableReady table.now shape index.now entries }
    ensures { Left work.new result (answer_for table.now line.now) }
{
    let places = text::check::check_line(line).map_err(Refusal::from)?;
    stages_answer(work, line, places, table, shape, index, entries)
}

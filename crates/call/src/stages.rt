// The stages of the call behind its checks (01, "The rest of the call"), up to the finished lattice in the work space; nothing is written to an output.
ghost use Rattle.std.specs.Prelude.{◌≡◌, ℕ, ◌≤◌, length};
ghost use Rattle.text.specs.Text.{chars};
ghost use Rattle.table.specs.Answers.{table_of};
ghost use Rattle.edge.specs.Layout.{listed};
ghost use Rattle.numbers.specs.Ready.{work_size};
ghost use Rattle.table_check.specs.Indexed.{RecordIndex};
ghost use Rattle.call.specs.Checks.{Accepted};
ghost use Rattle.call.specs.Kinds.{has_decimals, silences_singles};
ghost use Rattle.call.specs.Stages.{StagesAre};

use first_stages::bare::is_bare;
use lattice::Lattice;
use table::index::INDEX_SIZE;
use table::shape::Shape;
use text::Place;
use text::check::PLACES;

// The calls: 01's, the one in which some singles may not stand (02, S-12), and the one with decimals (02, S-13).
#[derive(Clone, Copy)]
pub enum CallKind {
    First,
    WithoutSingles,
    WithDecimals,
}

// Whether the passes join digits, a point and digits.
fn has_decimals(kind: CallKind) -> bool
    ensures { result ≡ has_decimals kind }
{
    matches!(kind, CallKind::WithDecimals)
}

// Whether singles that may not stand turn inactive.
fn silences_singles(kind: CallKind) -> bool
    ensures { result ≡ silences_singles kind }
{
    matches!(kind, CallKind::WithoutSingles)
}

// The stages of a call, for a line, a table and given edges that passed their checks. A line without given edges that no stage adds an edge to is
// answered before its offsets are made.
#[tactic(auto, unfolding(crate::specs::Stages::StagesAre, first_stages::specs::Stages::CallPassed))]
pub fn run_stages(
    work: &mut [u8],
    line: &[u8],
    table: &[u8],
    shape: Shape,
    places: usize,
    edges: &[u8],
    count: usize,
    index: &[u32; INDEX_SIZE],
    entries: usize,
    kind: CallKind,
) -> Result<Lattice, Place>
    requires { (work_size ≤ length work.old) × Accepted line.now table.now edges.now places shape count
        × RecordIndex table.now shape index.now entries }
    ensures { StagesAre kind (table_of table.now shape) (chars line.now)
        (listed edges.now) work.new result }
{
    let bare = is_bare(line, table, shape, index, entries);
    if bare & (count == 0) {
        return Ok(lattice::ends::empty(work));
    }
    let mut offs = [0usize; PLACES];
    pass_edge::places::place_offsets(line, &mut offs);
    let decimals = has_decimals(kind);
    let passed = first_stages::run_first_stages(
        work, line, &offs, table, shape, edges, count, index, entries, decimals,
    );
    let (lattice, stored) = passed?;
    let silencing = silences_singles(kind);
    Ok(crate::last_stages::run_last_stages(
        work, lattice, line, &offs, table, shape, places, stored, silencing,
    ))
}

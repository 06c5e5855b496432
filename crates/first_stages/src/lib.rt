// The stages of the call up to the five passes: the given edges, those of the characters, and those that the passes join.
#![tactic(auto)]

pub mod given; // given.rt: the given edges
pub mod five_passes; // five_passes.rt: the five passes, and their joined edges
pub mod chars; // chars.rt: the characters of the line
pub mod bare; // bare.rt: whether a line has a character that a stage adds an edge for

ghost use Rattle.std.specs.Prelude.{◌≡◌, true, ℕ, ◌≤◌, length, Ok};
ghost use Rattle.edge.specs.Check.{check_listing};
ghost use Rattle.table_check.specs.Indexed.{RecordIndex};
ghost use Rattle.numbers.specs.Ready.{Ready, Offsets, work_size};
ghost use Rattle.first_stages.specs.Stages.{CallPassed};

use lattice::Lattice;
use table::index::INDEX_SIZE;
use table::shape::Shape;
use text::Place;
use text::check::PLACES;

// The given edges, those of the characters, and those that the five passes join: with decimals, where the call has them (02, S-13).
pub fn run_first_stages(
    work: &mut [u8],
    line: &[u8],
    offs: &[usize; PLACES],
    table: &[u8],
    shape: Shape,
    edges: &[u8],
    count: usize,
    index: &[u32; INDEX_SIZE],
    entries: usize,
    decimals: bool,
) -> Result<(Lattice, usize), Place>
    requires { Offsets line.now offs.now × (work_size ≤ length work.old)
        × ((n : ℕ) × Ready line.now table.now shape n × (check_listing true n edges.now ≡ Ok count))
        × RecordIndex table.now shape index.now entries }
    ensures { CallPassed decimals line.now table.now shape edges.now
        work.new result }
{
    let none = lattice::ends::empty(work);
    let given = crate::given::add_all_given(work, none, edges, count);
    let first = crate::chars::initialize_num_edges(
        work, given, line, offs, table, shape, index, entries, decimals,
    );
    let l = first.lattice;
    crate::five_passes::five_passes(work, l, line, offs, table, first.count)
}

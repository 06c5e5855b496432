// The stage of the line's characters (01, "From characters to edges"): the edge of each that has a record is added, and its stored edge stands behind the lattice, for
// the passes.
ghost use Rattle.std.specs.Prelude.{◌≡◌, true, ◌&&◌, List, [], ◌∷◌, ◌++◌, ℕ, ◌+◌, ◌<◌, ◌≤◌, length, get_or};
ghost use Rattle.text.specs.Text.{chars, well_formed};
ghost use Rattle.text.specs.Line.{max_chars};
ghost use Rattle.table.specs.Answers.{Inside};
ghost use Rattle.table.specs.Index.{Whole, Indexed};
ghost use Rattle.table.specs.Table.{find, is_none};
ghost use Rattle.edge.specs.Edge.{Edge};
ghost use Rattle.lattice.specs.Lattice.{add};
ghost use Rattle.lattice.specs.Kept.{Holds};
ghost use Rattle.pass_list.specs.Edges.{points_of};
ghost use Rattle.passes.specs.DecimalPasses.{point_character};
ghost use Rattle.table_check.specs.Indexed.{RecordIndex};
ghost use Rattle.numbers.specs.Ready.{Ready, Offsets, work_size};
ghost use Rattle.pass_edge.specs.Grounded.{Grounded};
ghost use Rattle.pass_edge.specs.Adding.{listed_of};
ghost use Rattle.characters.specs.Initial.{records_in, Records};
ghost use Rattle.first_stages.specs.Five.{behind};
ghost use Rattle.first_stages.specs.CharStage.{Room, char_here, Adding, FirstDone};

use characters::char_edge;
use lattice::Lattice;
use pass_list::layout::SIZE;
use pass_list::write::write_edge;
use table::index::{INDEX_SIZE, RecordRun, find_char, is_absent};
use table::layout::NumProp;
use table::shape::Shape;
use text::check::PLACES;
use text::{Offset, Place};

// The lattice, and how many stored edges the pass list has.
#[derive(Clone, Copy)]
pub struct CharsAnswer {
    pub lattice: Lattice,
    pub count: usize,
}

// Whether a point stands at a place of the line, its end included, where points count. A point, and no other character, begins with its byte.
fn point_at(line: &[u8], offs: &[usize; PLACES], place: Place, marks: bool) -> bool
    requires { Offsets line.now offs.now × (place.0 ≤ length (chars line.now))
        × (length (chars line.now) ≤ max_chars) }
    ensures { result ≡ points_of marks (chars line.now) place.0 }
{
    if !marks {
        return false;
    }
    let p = place.0;
    let at = offs[p];
    if at == line.len() {
        return false;
    }
    line[at] == 0x2E
}

// The edge of a code point whose record stands at record_at: it is stored behind the lattice, behind so many stored edges, and added to the lattice while it is at hand.
// marks: points count, so that one behind the character is marked.
fn put_and_add(
    work: &mut [u8],
    lattice: Lattice,
    count: usize,
    line: &[u8],
    offs: &[usize; PLACES],
    table: &[u8],
    prop: NumProp,
    record_at: Offset,
    place: Place,
    code: u32,
    marks: bool,
) -> Lattice
    requires { Room work.old lattice line.now offs.now × (count < max_chars)
        × (place.0 < length (chars line.now)) × Inside table.now prop
        × Grounded (points_of marks (chars line.now)) (chars line.now) table.now
        (char_here marks line.now table.now prop record_at.0 place.0 code) }
    ensures { (behind work.new (count + 1) ≡ behind work.old count
        ++ (char_here marks line.now table.now prop record_at.0 place.0 code ∷ []))
        × ((es : List Edge) → Holds work.old lattice es
        → Holds work.new result (add es
        (listed_of (chars line.now) table.now
        (char_here marks line.now table.now prop record_at.0 place.0 code)))) }
{
    let end = place.0 + 1;
    let point = point_at(line, offs, Place(end), marks);
    let e = char_edge(table, prop, record_at, place, code, point);
    write_edge(work, lattice::END + count * SIZE, e);
    characters::add::add_char(work, lattice, line, offs, table, e)
}

// The table, its records and the index stay separate parameters: `table::index::find_char` takes them so, and a struct would be split again at each call.
// One character more: its edge behind those of the characters before it, if it has a record.
fn add_char(
    work: &mut [u8],
    done: CharsAnswer,
    line: &[u8],
    offs: &[usize; PLACES],
    table: &[u8],
    all: RecordRun,
    index: &[u32; INDEX_SIZE],
    entries: usize,
    place: Place,
    code: u32,
    marks: bool,
) -> CharsAnswer
    requires { Room work.old done.lattice line.now offs.now × Records table.now all
        × Indexed table.now (records_in table.now all) index.now all.left entries × (done.count ≤ place.0)
        × (place.0 < length (chars line.now)) × (get_or (chars line.now) place.0 0 ≡ code) }
    ensures { (s : List ℕ) (l : Lattice)
        → Adding marks line.now table.now (records_in table.now all) place.0 s l
        work.old done
        → Adding marks line.now table.now (records_in table.now all) (place.0 + 1) s l
        work.new result }
{
    let l = done.lattice;
    let n = done.count;
    match find_char(table, all, index, entries, code) {
        Some((p, at)) => CharsAnswer {
            lattice: put_and_add(
                work,
                l,
                n,
                line,
                offs,
                table,
                p,
                Offset(at),
                place,
                code,
                marks,
            ),
            count: n + 1,
        },
        None => done,
    }
}

// The characters of a well-formed line one after the other.
fn add_chars(
    work: &mut [u8],
    lattice: Lattice,
    line: &[u8],
    offs: &[usize; PLACES],
    table: &[u8],
    all: RecordRun,
    index: &[u32; INDEX_SIZE],
    entries: usize,
    marks: bool,
) -> CharsAnswer
    requires { Room work.old lattice line.now offs.now × (well_formed line.now ≡ true)
        × Records table.now all × Indexed table.now (records_in table.now all) index.now all.left entries }
    ensures { Adding marks line.now table.now (records_in table.now all)
        (length (chars line.now)) work.old lattice work.new result }
{
    let mut done = CharsAnswer {
        lattice: lattice,
        count: 0,
    };
    let mut place: usize = 0;
    // Kept as a while loop: the step is the length of a character, which no iterator of std over bytes gives.
    let mut at: usize = 0;
    while at < line.len() {
        let c = text::known::char_at(line, Offset(at));
        done = add_char(
            work,
            done,
            line,
            offs,
            table,
            all,
            index,
            entries,
            Place(place),
            c.code,
            marks,
        );
        place += 1;
        at += c.len;
    }
    done
}

// Whether points count: in a call with decimals, where a point has no record. The first call asks for no record.
fn points_count(
    table: &[u8],
    all: RecordRun,
    index: &[u32; INDEX_SIZE],
    entries: usize,
    decimals: bool,
) -> bool
    requires { Whole table.now all.at all.left
        × Indexed table.now (records_in table.now all) index.now all.left entries }
    ensures { result ≡ (decimals && is_none (find (records_in table.now all) point_character)) }
{
    if !decimals {
        return false;
    }
    is_absent(table, all, index, entries, 0x2E)
}

// The edges of the line's characters are added to the lattice, and their stored edges stand behind it. index is that over the table's records;
// decimals: the call has them, so that points may count.
pub fn initialize_num_edges(
    work: &mut [u8],
    lattice: Lattice,
    line: &[u8],
    offs: &[usize; PLACES],
    table: &[u8],
    shape: Shape,
    index: &[u32; INDEX_SIZE],
    entries: usize,
    decimals: bool,
) -> CharsAnswer
    requires { ((es : List Edge) × Holds work.old lattice es) × Offsets line.now offs.now
        × (work_size ≤ length work.old) × ((n : ℕ) × Ready line.now table.now shape n)
        × RecordIndex table.now shape index.now entries }
    ensures { FirstDone decimals line.now table.now shape work.old lattice
        work.new result }
{
    // the table begins with the count of its records
    let count = fields::u16_at(table, 0) as usize;
    let all = RecordRun {
        at: shape.records,
        left: count,
    };
    let marks = points_count(table, all, index, entries, decimals);
    add_chars(work, lattice, line, offs, table, all, index, entries, marks)
}

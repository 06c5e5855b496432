// Singles that may not stand (02, S-12): after F1, edges one place long turn inactive at the places of such edges of the list after G4. One walk over that list marks the
// places, one walk over the lattice turns the edges off. That this is the definition's stage, by keys and copies, is shown in proofs/ByPlace.antt.
#![tactic(auto)]

ghost use Rattle.std.specs.Prelude.{◌≡◌, false, true, cond, List, map, ℕ, ◌+◌, ◌*◌, ◌≤◌, ◌<◌, length, drop, get_or, set, replicate};
ghost use Rattle.text.specs.Text.{chars};
ghost use Rattle.text.specs.Line.{max_chars};
ghost use Rattle.edge.specs.Edge.{Edge};
ghost use Rattle.edge.specs.Legal.{Legal};
ghost use Rattle.edge.specs.Layout.{edge_at};
ghost use Rattle.lattice.specs.Kept.{Holds, no_edge, END, SameBehind};
ghost use Rattle.paths.specs.Reading.{Spanned};
ghost use Rattle.pass_list.specs.StoredEdge.{StoredEdge};
ghost use Rattle.pass_list.specs.Stored.{stored_list_at};
ghost use Rattle.pass_list.specs.Edges.{edge_of};
ghost use Rattle.pass_list.specs.Layout.{SIZE};
ghost use Rattle.pass_edge.specs.Grounded.{AllGrounded, StoredIs};
ghost use Rattle.numbers.specs.Ready.{Offsets};
ghost use Rattle.numbers.specs.CallEdge.{Legals};
ghost use Rattle.numbers.specs.Singles.{barred_characters, one_of, barred};
ghost use Rattle.singles.specs.ByPlace.{barred_at, quiet_at, barred_by, silence_at, silenced_by};

use lattice::Lattice;
use pass_list::layout::SIZE;
use pass_list::record::PassEdge;
use text::check::PLACES;

// Whether a text is one of 兩参參伍陆陸什.
fn is_barred_text(text: &[u8]) -> bool
    ensures { result ≡ one_of barred_characters text.now }
{
    // a two, two threes, a five, two sixes, a ten
    let two = text::same_bytes(text, b"\xE5\x85\xA9");
    let three = text::same_bytes(text, b"\xE5\x8F\x82") | text::same_bytes(text, b"\xE5\x8F\x83");
    let five = text::same_bytes(text, b"\xE4\xBC\x8D");
    let six = text::same_bytes(text, b"\xE9\x99\x86") | text::same_bytes(text, b"\xE9\x99\xB8");
    let ten = text::same_bytes(text, b"\xE4\xBB\x80");
    two | three | five | six | ten
}

// Whether an edge of the list after G4 may not stand: one place long, and above 1000 or one of the characters.
fn is_barred(line: &[u8], offs: &[usize; PLACES], edge: PassEdge) -> bool
    requires { Offsets line.now offs.now × (length (chars line.now) ≤ max_chars)
        × ((table : List ℕ) × (stored : StoredEdge) × StoredIs line.now table edge stored) }
    ensures { (table : List ℕ) (stored : StoredEdge) → StoredIs line.now table edge stored
        → result ≡ barred (edge_of (chars line.now) table stored) }
{
    if edge.end.0 != edge.start.0 + 1 {
        return false;
    }
    if whole::exact_u64(edge.num.value) > 1000 {
        return true;
    }
    is_barred_text(pass_edge::line_part(line, offs, edge.start, edge.end))
}

// Sets the mark of an edge's place, if the edge may not stand.
fn mark_barred(line: &[u8], offs: &[usize; PLACES], edge: PassEdge, marks: &mut [bool; PLACES])
    requires { Offsets line.now offs.now × (length (chars line.now) ≤ max_chars)
        × ((table : List ℕ) × (stored : StoredEdge) × StoredIs line.now table edge stored) }
    ensures { (table : List ℕ) (stored : StoredEdge) → StoredIs line.now table edge stored
        → marks.new
        ≡ cond (barred (edge_of (chars line.now) table stored))
        (set marks.old edge.start.0 true) marks.old }
{
    if is_barred(line, offs, edge) {
        let place = edge.start.0;
        marks[place] = true;
    }
}

// The marks of all places where one of the count edges of the list after G4, behind the lattice, may not stand.
fn mark_all_barred(
    work: &[u8],
    line: &[u8],
    offs: &[usize; PLACES],
    count: usize,
    marks: &mut [bool; PLACES],
)
    requires { Offsets line.now offs.now × (length (chars line.now) ≤ max_chars)
        × ((table : List ℕ) × AllGrounded (chars line.now) table (stored_list_at (drop END work.now) 0 count))
        × (END + count * SIZE ≤ length work.now) × (marks.old ≡ replicate 257 false) }
    ensures { (table : List ℕ)
        → AllGrounded (chars line.now) table (stored_list_at (drop END work.now) 0 count)
        → (place : ℕ) → place < 257 → get_or marks.new place false
        ≡ barred_at (map (edge_of (chars line.now) table)
        (stored_list_at (drop END work.now) 0 count)) place }
{
    let list = lattice::END;
    // Kept beside `signs::add_signs`: they share these two lines, and a closure there would write the work space that is read here.
    for i in 0..count {
        let edge = pass_list::read::read_edge(&work[list..], i * SIZE);
        mark_barred(line, offs, edge, marks);
    }
}

// Whether an edge of the lattice is one place long and at a place that has a mark.
fn is_marked(listing: &[u8], at: usize, marks: &[bool; PLACES]) -> bool
    requires { Spanned max_chars listing.now at }
    ensures { result ≡ barred_by marks.now (edge_at listing.now at) }
{
    let start = fields::u16_at(listing, at + 2) as usize;
    let end = fields::u16_at(listing, at + 4) as usize;
    if end == start + 1 {
        return marks[start];
    }
    false
}

// The i-th edge turns inactive, if the marks say so.
fn silence_one(work: &mut [u8], lattice: Lattice, i: usize, marks: &[bool; PLACES])
    requires { (lattice.len ≡ 0 → ⊥) × ((n : ℕ) × (n ≤ max_chars) × ((es : List Edge)
        × Holds work.old lattice es × (i < length es) × Legal false n (get_or es i no_edge))) }
    ensures { SameBehind work.old work.new
        × ((n : ℕ) (es : List Edge) → n ≤ max_chars
        → Holds work.old lattice es → i < length es → Legal false n (get_or es i no_edge)
        → Holds work.new lattice (silence_at marks.now es i)) }
{
    let at = lattice::offset_at(work, lattice, i);
    if is_marked(work, at, marks) {
        lattice::turn_off(work, lattice, i);
    }
}

// All edges in turn.
fn silence_all(work: &mut [u8], lattice: Lattice, marks: &[bool; PLACES])
    requires { (lattice.len ≡ 0 → ⊥) × ((n : ℕ) × (n ≤ max_chars)
        × ((es : List Edge) × Holds work.old lattice es × Legals n es)) }
    ensures { SameBehind work.old work.new
        × ((n : ℕ) (es : List Edge) → n ≤ max_chars
        → Holds work.old lattice es → Legals n es
        → Holds work.new lattice (silenced_by marks.now es)) }
{
    for i in 0..lattice.count {
        silence_one(work, lattice, i, marks);
    }
}

// The stage: singles that may not stand turn inactive; count edges are in the list after G4.
pub fn silence_singles(
    work: &mut [u8],
    lattice: Lattice,
    line: &[u8],
    offs: &[usize; PLACES],
    count: usize,
)
    requires { Offsets line.now offs.now × (length (chars line.now) ≤ max_chars)
        × ((table : List ℕ) × AllGrounded (chars line.now) table (stored_list_at (drop END work.old) 0 count))
        × (END + count * SIZE ≤ length work.old)
        × ((n : ℕ) × (n ≤ max_chars) × ((es : List Edge) × Holds work.old lattice es × Legals n es)) }
    ensures { SameBehind work.old work.new
        × ((table : List ℕ) (n : ℕ) (es : List Edge) → n ≤ max_chars
        → AllGrounded (chars line.now) table (stored_list_at (drop END work.old) 0 count)
        → Holds work.old lattice es → Legals n es
        → Holds work.new lattice
        (map (quiet_at (map (edge_of (chars line.now) table)
        (stored_list_at (drop END work.old) 0 count))) es)) }
{
    if lattice.len == 0 {
        return;
    }
    let mut marks = [false; PLACES];
    mark_all_barred(work, line, offs, count, &mut marks);
    silence_all(work, lattice, &marks);
}

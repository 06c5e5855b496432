// An edge of the pass list as an edge of the lattice (01, "From characters to edges", "Five passes"): what a stored edge needs for it is `Grounded` of specs/Grounded.antt;
// and a character's texts, as parts of the table or of the line.
#![tactic(auto)]

pub mod places; // places.rt: the offsets of all places of a line
pub mod txt; // txt.rt: its txt
pub mod edge_type; // edge_type.rt: its type
pub mod listed; // listed.rt: its fields, and the edge added
pub mod theorems; // theorems.rt: it is an edge of the call (theorems)

ghost use Rattle.std.specs.Prelude.{◌≡◌, ℕ, ◌+◌, ◌/◌, ◌%◌, ◌≤◌, List, length, get_or};
ghost use Rattle.text.specs.Text.{chars};
ghost use Rattle.text.specs.Line.{max_chars};
ghost use Rattle.pass_list.specs.Edges.{between};
ghost use Rattle.numbers.specs.Ready.{Offsets};
ghost use Rattle.pass_edge.specs.Grounded.{LegalAt};
ghost use Rattle.pass_edge.specs.Texts.{char_txt, char_type, Front};

use text::Place;
use text::check::PLACES;

// The type of a character whose record was checked: its bytes in the table, by the length before them.
pub fn type_at(table: &[u8], at: usize) -> &[u8]
    requires { LegalAt table.now at }
    ensures { result.now ≡ char_type table.now at }
{
    let from = at + 6;
    let to = from + table[at + 5] as usize;
    &table[from..to]
}

// Its rom, behind the type.
pub fn rom_at(table: &[u8], at: usize) -> &[u8]
    requires { LegalAt table.now at × (get_or table.now (at + 4) 0 / 1 % 2 ≡ 1) }
    ensures { (w : List ℕ) (a b : ℕ) → result.now ≡ char_txt w table.now at a b }
{
    let len_at = at + 6 + table[at + 5] as usize;
    let from = len_at + 1;
    let to = from + table[len_at] as usize;
    &table[from..to]
}

// The bytes of the line between two places.
pub fn line_part<'a>(line: &'a [u8], offs: &[usize; PLACES], start: Place, end: Place) -> &'a [u8]
    requires { Offsets line.now offs.now × (start.0 ≤ end.0) × (end.0 ≤ length (chars line.now))
        × (length (chars line.now) ≤ max_chars) }
    ensures { result.now ≡ between (chars line.now) start.0 end.0 }
{
    let first = start.0;
    let last = end.0;
    let from = offs[first];
    let to = offs[last];
    &line[from..to]
}

// A text goes to the front of a buffer: how many bytes.
pub fn put_text(buf: &mut [u8], txt: &[u8]) -> usize
    requires { length txt.now ≤ length buf.old }
    ensures { Front buf.old buf.new result txt.now }
{
    fields::copy::copy_in(buf, 0, txt);
    txt.len()
}

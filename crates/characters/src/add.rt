// A character of the line is added to the lattice, by its record (01, "From characters to edges").
ghost use Rattle.std.specs.Prelude.{◌≡◌};
ghost use Rattle.pass_edge.specs.Grounded.{LegalAt};
ghost use Rattle.pass_edge.specs.Fields.{stored_fraction, FractionIs};
ghost use Rattle.pass_edge.specs.Adding.{Addable, Added};
ghost use Rattle.pass_list.specs.Kind.{kind_number};

use lattice::Lattice;
use pass_list::record::PassEdge;
use passes::ratio::Ratio;
use table::bits;
use table::record::known::record_here;
use text::check::PLACES;

// Its fraction. Only a record that has one is read whole.
fn fraction_at(table: &[u8], at: usize) -> Option<Ratio>
    requires { LegalAt table.now at }
    ensures { FractionIs result (stored_fraction table.now 0 at) }
{
    if table[at + 4] / bits::FRACTION % 2 == 1 {
        return crate::fraction::fraction_of(record_here(table, at));
    }
    None
}

// A character is added: its type is a part of the table, its txt the rom there or else the character in the line.
pub fn add_char(
    work: &mut [u8],
    lattice: Lattice,
    line: &[u8],
    offs: &[usize; PLACES],
    table: &[u8],
    edge: PassEdge,
) -> Lattice
    requires { Addable work.old lattice line.now offs.now table.now edge × (kind_number edge.kind ≡ 0) }
    ensures { Added line.now table.now edge work.old lattice
        work.new result }
{
    let at = edge.record_at.0;
    let f = fraction_at(table, at);
    let ty = pass_edge::type_at(table, at);
    if table[at + 4] / bits::ROM % 2 == 1 {
        let rom = pass_edge::rom_at(table, at);
        return pass_edge::listed::add_texts(work, lattice, line, offs, table, edge, f, ty, rom);
    }
    let own = pass_edge::line_part(line, offs, edge.start, edge.end);
    pass_edge::listed::add_texts(work, lattice, line, offs, table, edge, f, ty, own)
}

// The edges for the signs of one list that stand directly before a stored edge of the pass list (01, "The rest of the call", G6). A sign is given by its ASCII byte.
ghost use Rattle.std.specs.Prelude.{◌≡◌, true, List, ◌∷◌, [], ◌++◌, ◌+◌, ◌≤◌, length};
ghost use Rattle.text.specs.Text.{chars, well_formed};
ghost use Rattle.text.specs.Line.{max_chars};
ghost use Rattle.table.specs.Layout.{list_at, max_string};
ghost use Rattle.edge.specs.Edge.{Edge};
ghost use Rattle.lattice.specs.Lattice.{add};
ghost use Rattle.lattice.specs.Kept.{Holds, SameBehind};
ghost use Rattle.pass_list.specs.StoredEdge.{StoredEdge, EdgeIs};
ghost use Rattle.pass_list.specs.Edges.{txt_of, edge_of};
ghost use Rattle.numbers.specs.Ready.{Offsets};
ghost use Rattle.numbers.specs.Signs.{sign_edge};
ghost use Rattle.pass_edge.specs.Grounded.{Rooted, StoredIs};
ghost use Rattle.pass_edge.specs.Texts.{type_of};
ghost use Rattle.pass_edge.specs.Adding.{Addable};
ghost use Rattle.markers.specs.Marks.{Formed};
ghost use Rattle.signs.specs.SignEdges.{Signs, Begins};

use lattice::Lattice;
use pass_list::record::PassEdge;
use text::Place;
use text::check::PLACES;

// The type of a sign's edge goes to the front of a buffer: the stored edge's, a space and the sign.
fn sign_type(buf: &mut [u8], table: &[u8], edge: PassEdge, sign: u8) -> usize
    requires { (2 + max_string ≤ length buf.old)
        × ((i : StoredEdge) × EdgeIs edge i × (length (type_of table.now i) ≤ max_string) × Rooted table.now i) }
    ensures { (i : StoredEdge) → EdgeIs edge i
        → Begins buf.new result (type_of table.now i ++ (32 ∷ sign ∷ [])) }
{
    let n = pass_edge::edge_type::type_of(buf, table, edge);
    buf[n] = b' ';
    buf[n + 1] = sign;
    n + 2
}

// The txt of a sign's edge goes to the front of a buffer: the sign and the stored edge's.
fn sign_txt(
    buf: &mut [u8],
    line: &[u8],
    offs: &[usize; PLACES],
    table: &[u8],
    edge: PassEdge,
    sign: u8,
) -> usize
    requires { Offsets line.now offs.now × ((i : StoredEdge) × StoredIs line.now table.now edge i)
        × (length (chars line.now) ≤ max_chars) × (1 + max_chars ≤ length buf.old) }
    ensures { (i : StoredEdge) → EdgeIs edge i
        → Begins buf.new result (sign ∷ txt_of (chars line.now) table.now i) }
{
    buf[0] = sign;
    let n = pass_edge::txt::txt_of(&mut buf[1..], line, offs, table, edge);
    n + 1
}

// The edge for a sign that stands at place start: its texts are put together only here.
fn add_signed(
    work: &mut [u8],
    lattice: Lattice,
    line: &[u8],
    offs: &[usize; PLACES],
    table: &[u8],
    edge: PassEdge,
    sign: u8,
    start: Place,
) -> Lattice
    requires { Addable work.old lattice line.now offs.now table.now edge × (start.0 ≤ max_chars) }
    ensures { SameBehind work.old work.new
        × ((es : List Edge) (i : StoredEdge) → Holds work.old lattice es → EdgeIs edge i
        → Holds work.new result (add es (sign_edge start.0 sign
        (edge_of (chars line.now) table.now i)))) }
{
    let mut ty = [0u8; 62];
    let mut txt = [0u8; 257];
    let n = sign_type(&mut ty, table, edge, sign);
    let k = sign_txt(&mut txt, line, offs, table, edge, sign);
    lattice_add::regular::add_regular(work, lattice, start, edge.end, &ty[..n], &txt[..k])
}

// The edge for one sign of the table, where it stands directly before the stored edge.
fn add_sign(
    work: &mut [u8],
    lattice: Lattice,
    line: &[u8],
    offs: &[usize; PLACES],
    table: &[u8],
    edge: PassEdge,
    sign: u8,
    text: &[u8],
) -> Lattice
    requires { Addable work.old lattice line.now offs.now table.now edge
        × (well_formed text.now ≡ true) }
    ensures { Signs line.now table.now edge sign (text.now ∷ []) work.old lattice work.new result }
{
    match markers::sign_before(line, offs, edge.start, text) {
        Some(size) => add_signed(
            work,
            lattice,
            line,
            offs,
            table,
            edge,
            sign,
            Place(edge.start.0 - size),
        ),
        None => lattice,
    }
}

// The edges for the signs of a list of the table, in their order.
pub fn add_signs_of(
    work: &mut [u8],
    lattice: Lattice,
    line: &[u8],
    offs: &[usize; PLACES],
    table: &[u8],
    list: usize,
    edge: PassEdge,
    sign: u8,
) -> Lattice
    requires { Addable work.old lattice line.now offs.now table.now edge
        × Formed (list_at table.now list) }
    ensures { Signs line.now table.now edge sign (list_at table.now list)
        work.old lattice work.new result }
{
    let mut grown = lattice;
    for text in markers::texts::texts_of(table, list) {
        grown = add_sign(work, grown, line, offs, table, edge, sign, text);
    }
    grown
}

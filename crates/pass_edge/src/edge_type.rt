// The type of a stored edge of the pass list (01, "From characters to edges", "Five passes"): its record's, or the name of the pass that joined it.
ghost use Rattle.std.specs.Prelude.{◌≤◌, [], ◌∷◌, length};
ghost use Rattle.pass_list.specs.StoredEdge.{StoredEdge, EdgeIs};
ghost use Rattle.pass_list.specs.Edges.{kind_name};
ghost use Rattle.pass_list.specs.Kind.{kind_number};
ghost use Rattle.pass_list.specs.declared.kind.Kind.TheVariants.{Joined};
ghost use Rattle.pass_edge.specs.Grounded.{Rooted};
ghost use Rattle.pass_edge.specs.Texts.{type_of, Front};
ghost use Rattle.table.specs.Layout.{max_string};

use pass_list::kind::Kind;
use pass_list::record::PassEdge;
use pass_list::run::Pass;

// Two letters go to the front of a buffer.
fn put_name(buf: &mut [u8], letter: u8, digit: u8) -> usize
    requires { 2 ≤ length buf.old }
    ensures { Front buf.old buf.new result (letter ∷ digit ∷ []) }
{
    buf[0] = letter;
    buf[1] = digit;
    2
}

// The name of a pass. Kept as bytes put into a buffer, not as Display: they become a part of the listing, and a formatter over the buffer would come on top.
fn put_pass(buf: &mut [u8], pass: Pass) -> usize
    requires { 2 ≤ length buf.old }
    ensures { Front buf.old buf.new result (kind_name (kind_number (Joined pass))) }
{
    match pass {
        Pass::D1 => put_name(buf, b'D', b'1'),
        Pass::G1 => put_name(buf, b'G', b'1'),
        Pass::G2 => put_name(buf, b'G', b'2'),
        Pass::G3 => put_name(buf, b'G', b'3'),
        Pass::G4 => put_name(buf, b'G', b'4'),
    }
}

// The type of a stored edge goes to the front of a buffer: how many bytes.
pub fn type_of(buf: &mut [u8], table: &[u8], edge: PassEdge) -> usize
    requires { ((i : StoredEdge) × EdgeIs edge i × Rooted table.now i) × (max_string ≤ length buf.old) }
    ensures { (i : StoredEdge) → EdgeIs edge i
        → Front buf.old buf.new result (type_of table.now i) }
{
    let kind = edge.kind;
    match kind {
        Kind::Character => crate::put_text(buf, crate::type_at(table, edge.record_at.0)),
        Kind::Joined(pass) => put_pass(buf, pass),
    }
}

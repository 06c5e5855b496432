// The checks 2 to 6 of the call, in their order (01, "What a call is lent"): line, table, given edges.
ghost use Rattle.std.specs.Prelude.{◌≡◌};
ghost use Rattle.call.specs.Checks.{table_refusal, of_table, RestIs, CallCheckIs, CallCheckIndexed};

use answers::Refusal;
use table::index::INDEX_SIZE;
use table::shape::{Cause, Shape, TableRefusal};
use text::Offset;

// The refusal of a table, by its number.
pub fn table_refusal(number: u8, at: Offset) -> Refusal
    ensures { result ≡ table_refusal number at }
{
    if number == Cause::Layout.number() {
        return Refusal::BadTable(at);
    }
    Refusal::BadContent(at)
}

// The refusal of a table, by its cause.
pub fn of_table(r: TableRefusal) -> Refusal
    ensures { result ≡ of_table r }
{
    table_refusal(r.cause.number(), r.at)
}

// The checks 4 to 6, of a line of so many characters.
fn check_rest(
    chars: usize,
    table: &[u8],
    edges: &[u8],
    offs: &mut [u32; INDEX_SIZE],
    entries: &mut usize,
) -> Result<(usize, Shape, usize), Refusal>
    ensures rest_is { RestIs chars table.now edges.now result }
    ensures indexed { CallCheckIndexed table.now offs.new entries.new result }
{
    let shape = table_check::check_table(table, offs, entries).map_err(of_table)?;
    let count = edge_check::check_listing(edges, chars, true).map_err(Refusal::BadEdges)?;
    Ok((chars, shape, count))
}

// The checks 2 to 6, in this order. The index over the table's records is left in offs, with so many entries.
pub fn check(
    line: &[u8],
    table: &[u8],
    edges: &[u8],
    offs: &mut [u32; INDEX_SIZE],
    entries: &mut usize,
) -> Result<(usize, Shape, usize), Refusal>
    ensures call_check_is { CallCheckIs line.now table.now edges.now result }
    ensures indexed { CallCheckIndexed table.now offs.new entries.new result }
{
    let chars = text::check::check_line(line).map_err(Refusal::from)?;
    check_rest(chars, table, edges, offs, entries)
}

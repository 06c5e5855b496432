// Refusals 4 and 5 of the whole table: the first faulty item decides, its layout (4) before its content (5).
#![tactic(auto)]

pub mod items; // items.rt: the strings of a list, and the records, whose index is made on the way

ghost use Rattle.table_check.specs.Indexed.{TableIndexed};
ghost use Rattle.table_check.specs.Shape.{TableIs};

use crate::items::{list_end, records_end};
use table::index::INDEX_SIZE;
use table::shape::{Cause, Shape, TableRefusal};

// The table that the bytes are, or why they are none. The index over its records is left in offs, with so many entries.
pub fn check_table(
    s: &[u8],
    offs: &mut [u32; INDEX_SIZE],
    entries: &mut usize,
) -> Result<Shape, TableRefusal>
    ensures table_is { TableIs s.now result }
    ensures indexed { TableIndexed s.now offs.new entries.new result }
{
    if s.len() < 2 {
        return Err(Cause::Layout.refusal_at(0));
    }
    let count = fields::u16_at(s, 0) as usize;
    let connectors = list_end(s, 2)?;
    let plus = list_end(s, connectors)?;
    let minus = list_end(s, plus)?;
    let records = list_end(s, minus)?;
    let end = records_end(s, records, count, offs, entries)?;
    if end != s.len() {
        return Err(Cause::Layout.refusal_at(end));
    }
    Ok(Shape {
        percentages: 2,
        connectors: connectors,
        plus: plus,
        minus: minus,
        count: count,
        records: records,
    })
}

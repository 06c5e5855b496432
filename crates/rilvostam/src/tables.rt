// The tables that the library has, in 01's form: the plain table of 01 and the formal one of 02, S-11; and whether a table is regular. What is answered is in
// specs/Tables.antt.
ghost use Rattle.std.specs.Prelude.{◌≡◌, length};
ghost use Rattle.grammar.specs.Formal.{formal_bytes};
ghost use Rattle.grammar.specs.PlainBytes.{plain_bytes};
ghost use Rattle.numbers.specs.Call.{out_after};
ghost use Rattle.call.specs.Answers.{AnswerIs};
ghost use Rattle.rilvostam.specs.Exported.{call_told};
ghost use Rattle.regular.specs.CheckRegular.{check_regular};
ghost use Rattle.rilvostam.specs.Tables.{supplied, regular_told};

use answers::{CStatus, Refusal};
use table::shape::TableRefusal;
use text::Offset;

// A table's bytes at the start of the output; where the output is shorter than they are, 8.
fn put_table(table: &[u8], out: &mut [u8]) -> Result<usize, Refusal>
    ensures { AnswerIs out.old out.new result
        (supplied table.now (length out.old)) }
{
    if out.len() < table.len() {
        return Err(Refusal::TooLong);
    }
    fields::copy::copy_in(out, 0, table);
    Ok(table.len())
}

// The plain table.
pub fn rilvostam_plain_table(out: &mut [u8], at: &mut u64) -> u32
    ensures status { result ≡ (call_told (supplied plain_bytes (length out.old))).status }
    ensures place { at.new ≡ (call_told (supplied plain_bytes (length out.old))).at }
    ensures output { out.new
        ≡ out_after out.old (supplied plain_bytes (length out.old)) }
{
    let table = grammar::plain_table::plain_table();
    let plain = answers::answer_told(put_table(&table, out));
    *at = plain.at;
    plain.status
}

// The formal table.
pub fn rilvostam_formal_table(out: &mut [u8], at: &mut u64) -> u32
    ensures status { result ≡ (call_told (supplied formal_bytes (length out.old))).status }
    ensures place { at.new ≡ (call_told (supplied formal_bytes (length out.old))).at }
    ensures output { out.new
        ≡ out_after out.old (supplied formal_bytes (length out.old)) }
{
    let table = grammar::formal_table::formal_table();
    let formal = answers::answer_told(put_table(&table, out));
    *at = formal.at;
    formal.status
}

// What C is told of the check: 0 with NONE for a regular table, 0 with the offset of its first record of none of the four kinds for any other; or the refusal.
fn regular_told(a: Result<Option<Offset>, TableRefusal>) -> CStatus
    ensures { result ≡ regular_told a }
{
    match a {
        Ok(None) => CStatus {
            status: 0,
            at: 18446744073709551615,
        },
        Ok(Some(at)) => CStatus {
            status: 0,
            at: at.0 as u64,
        },
        Err(r) => CStatus {
            status: r.cause.number() as u32,
            at: r.at.0 as u64,
        },
    }
}

// Whether a table is regular.
pub fn rilvostam_regular_table(table: &[u8], at: &mut u64) -> u32
    ensures status { result ≡ (regular_told (check_regular table.now)).status }
    ensures place { at.new ≡ (regular_told (check_regular table.now)).at }
{
    let checked = regular_told(regular::check_regular(table));
    *at = checked.at;
    checked.status
}

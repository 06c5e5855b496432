// Whether the bytes of a table are those of a regular one (`table_grammar`, specs/Kinds.antt), for which demand 3 is shown (its proofs/RegularDemand3.antt): the check,
// and what fails without each part of the condition (proofs/Without.antt). The cost is that of the table's check and one walk over the records.
#![tactic(auto)]

ghost use Rattle.std.specs.Prelude.{◌≡◌, length};
ghost use Rattle.table.specs.Layout.{records_at};
ghost use Rattle.table.specs.Answers.{optionally, record_of, Inside};
ghost use Rattle.passes.specs.NumEdge.{or_zero};
ghost use Rattle.table_grammar.specs.Kinds.{regular_record};
ghost use Rattle.regular.specs.CheckRegular.{of_four_kinds, irregular_at, irregular, check_regular};

use table::bits;
use table::digit::is_digit_type;
use table::index::INDEX_SIZE;
use table::layout::NumProp;
use table::record::known::record_here;
use table::shape::TableRefusal;
use text::Offset;

// Whether a record is of one of the four kinds: a digit, a unit, a large power or any other, in this order.
fn of_four_kinds(digit: bool, valued: bool, value: u64, base: u64, large: bool, gap: bool) -> bool
    ensures { result ≡ of_four_kinds digit valued value base large gap }
{
    (digit & valued & (value <= 9) & (base == 1) & !large)
        | ((10 <= value) & (2 <= base) & (base <= value) & !large & !gap)
        | ((10 <= value) & (2 <= base) & large)
        | (!valued & ((base <= 1) | large) & !gap)
}

// A number that is there, or 0.
fn number_if(there: bool, n: u64) -> u64
    ensures { result ≡ or_zero (optionally there n) }
{
    if there { n } else { 0 }
}

// The same by the record's fields.
fn is_regular(s: &[u8], p: NumProp) -> bool
    requires { Inside s.now p }
    ensures { result ≡ regular_record (record_of s.now p) }
{
    let digit = is_digit_type(s, p.num_type);
    let valued = p.map / bits::VALUE % 2 == 1;
    let value = number_if(valued, p.numbers.value);
    let base = number_if(p.map / bits::BASE % 2 == 1, p.numbers.base);
    let large = p.map / bits::LARGE_POWER % 2 == 1;
    let gap = (p.code_point == 0x96F6) | (p.code_point == 0x3007);
    of_four_kinds(digit, valued, value, base, large, gap)
}

// The first of n records, from an offset on, that is of none of the four kinds.
fn first_irregular(s: &[u8], from: usize, n: usize) -> Option<Offset>
    requires { length (records_at n s.now from) ≡ n }
    ensures { result ≡ irregular (irregular_at n s.now from) }
{
    let mut at = from;
    for _ in 0..n {
        let p = record_here(s, at);
        if !is_regular(s, p) {
            return Some(Offset(at));
        }
        at = p.next;
    }
    None
}

// Whether the bytes are those of a regular table: nothing, or the offset of its first record of none of the four kinds.
pub fn check_regular(s: &[u8]) -> Result<Option<Offset>, TableRefusal>
    ensures { result ≡ check_regular s.now }
{
    let mut index = [0u32; INDEX_SIZE];
    let mut entries: usize = 0;
    let shape = table_check::check_table(s, &mut index, &mut entries)?;
    Ok(first_irregular(s, shape.records, shape.count))
}

// The calls on single numerals (02, S-1, S-4, S-9 and S-10) for C. They are thin, as those of lib.rt.
ghost use Rattle.std.specs.Prelude.{◌≡◌, length};
ghost use Rattle.numeral.specs.Field.{field_of};
ghost use Rattle.worn.specs.Worn as worn;
ghost use Rattle.writing.specs.Written.{written, output};
ghost use Rattle.weights.specs.Weighed as weighed;
ghost use Rattle.rilvostam.specs.Numerals.{field_refusal_told, written_told, field_told, weights_told, worn_told};

use answers::{CStatus, Refusal, refusal_told};
use numeral::FieldRefusal;
use weights::WeighRefusal;
use worn::WornRefusal;
use writing::WriteRefusal;

// 0 and the bytes of the numeral, or the refusal.
fn written_told(w: Result<usize, WriteRefusal>) -> CStatus
    ensures { result ≡ written_told w }
{
    match w {
        Ok(len) => CStatus {
            status: 0,
            at: len as u64,
        },
        Err(WriteRefusal::AboveTop) => CStatus { status: 10, at: 0 },
        Err(WriteRefusal::TooShort) => CStatus { status: 8, at: 0 },
    }
}

// The numeral of a number, at the front of the output.
pub fn rilvostam_write_number(number: u64, out: &mut [u8], at: &mut u64) -> u32
    ensures status { result ≡ (written_told (written number (length out.old))).status }
    ensures place { at.new ≡ (written_told (written number (length out.old))).at }
    ensures output { out.new ≡ output number out.old }
{
    let numeral = written_told(writing::write_number(number, out));
    *at = numeral.at;
    numeral.status
}

// What C is told of a field: 0 or the refusal's number; whether it is a number; its value, or the refusal's offset or place.
#[derive(Clone, Copy)]
pub struct CField {
    pub status: u32,
    pub number: u8,
    pub at: u64,
}

fn field(status: u32, number: u8, at: u64) -> CField
    ensures { result ≡ record { status = status; number = number; at = at } }
{
    CField { status, number, at }
}

// Refusals 2 and 3 of a field with the offset, 7 with place 0.
fn field_refusal_told(r: FieldRefusal) -> CStatus
    ensures { result ≡ field_refusal_told r }
{
    match r {
        FieldRefusal::AboveTop => CStatus { status: 7, at: 0 },
        FieldRefusal::Line(line) => refusal_told(Refusal::from(line)),
    }
}

// Yes and the value, no, or the refusal.
fn field_told(f: Result<Option<u64>, FieldRefusal>) -> CField
    ensures { result ≡ field_told f }
{
    match f {
        Ok(Some(v)) => field(0, 1, v),
        Ok(None) => field(0, 0, 0),
        Err(r) => {
            let refused = field_refusal_told(r);
            field(refused.status, 0, refused.at)
        }
    }
}

// Is the line one number?
pub fn rilvostam_read_field(line: &[u8], is_number: &mut u8, at: &mut u64) -> u32
    ensures status { result ≡ (field_told (field_of line.now)).status }
    ensures number { is_number.new ≡ (field_told (field_of line.now)).number }
    ensures value { at.new ≡ (field_told (field_of line.now)).at }
{
    let told = field_told(numeral::read::one_number(line));
    *is_number = told.number;
    *at = told.at;
    told.status
}

// 0 and the count of the weights, or the refusal.
fn weights_told(w: Result<usize, WeighRefusal>) -> CStatus
    ensures { result ≡ weights_told w }
{
    match w {
        Ok(n) => CStatus {
            status: 0,
            at: n as u64,
        },
        Err(WeighRefusal::Field(r)) => field_refusal_told(r),
        Err(WeighRefusal::TooShort) => CStatus { status: 8, at: 0 },
    }
}

// The weight of each 一 to 九 of a line, at the front of the output.
pub fn rilvostam_weights(line: &[u8], out: &mut [u8], at: &mut u64) -> u32
    ensures status { result
        ≡ (weights_told (weighed.weigh line.now (length out.old))).status }
    ensures count { at.new
        ≡ (weights_told (weighed.weigh line.now (length out.old))).at }
    ensures output { out.new ≡ weighed.output line.now out.old }
{
    let answer = weights_told(weights::weigh_digits(line, out));
    *at = answer.at;
    answer.status
}

// 0 and the bytes of the rows, or the refusal.
fn worn_told(w: Result<usize, WornRefusal>) -> CStatus
    ensures { result ≡ worn_told w }
{
    match w {
        Ok(len) => CStatus {
            status: 0,
            at: len as u64,
        },
        Err(WornRefusal::Line(line)) => refusal_told(Refusal::from(line)),
        Err(WornRefusal::NotOneMark) => CStatus { status: 12, at: 0 },
        Err(WornRefusal::TooShort) => CStatus { status: 8, at: 0 },
        Err(WornRefusal::NoneServes) => CStatus { status: 13, at: 0 },
    }
}

// The characters that may have stood at the line's □, each in a row with the line's value, at the front of the output.
pub fn rilvostam_worn_character(line: &[u8], out: &mut [u8], at: &mut u64) -> u32
    ensures status { result ≡ (worn_told (worn.worn line.now (length out.old))).status }
    ensures place { at.new ≡ (worn_told (worn.worn line.now (length out.old))).at }
    ensures output { out.new ≡ worn.output line.now out.old }
{
    let rows = worn_told(worn::worn_character(line, out));
    *at = rows.at;
    rows.status
}

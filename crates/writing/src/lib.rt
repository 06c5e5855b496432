// A plot number written out (02, S-1): its numeral in UTF-8, `writing` of specs/Writing.antt. The digits are taken from the right, so the characters are put one
// before the other, from the end of a buffer on: 16 digits of up to three characters and four groups of up to two more make at most 168 bytes.
#![tactic(auto)]

ghost use Rattle.std.specs.Prelude.{◌≡◌, List, [], ◌∷◌, ◌+◌, ◌≤◌, ◌<◌, length, Some};
ghost use Rattle.grammar.specs.Plain.{Char, digit, utf8};
ghost use Rattle.writing.specs.Writing.{zero_if, digit_of, digit_part, group, group_part, writing};
ghost use Rattle.writing.specs.Before.{Mark, Before};
ghost use Rattle.writing.specs.Written.{written, output};

use whole::TOP;

// What writing a number answers: so many bytes; refusal 10, a number above TOP; refusal 8, an output too short.
#[derive(Clone, Copy)]
pub enum WriteRefusal {
    AboveTop,
    TooShort,
}

// Puts a character, by its code point, before an offset, or nothing. Answers the offset where it begins.
fn put(buf: &mut [u8; 192], at: usize, mark: Option<u32>) -> usize
    requires { (3 ≤ at) × (at ≤ 192) × (length buf.old ≡ 192) × ((m : List Char) × Mark m mark) }
    ensures begins { (result ≤ at) × (at ≤ result + 3) × (length buf.new ≡ 192) }
    ensures stored { (m : List Char) → Mark m mark → Before buf.old at (utf8 m) result buf.new }
{
    let Some(c) = mark else {
        return at;
    };
    buf[at - 3] = (224 + c / 64 / 64) as u8;
    buf[at - 2] = (128 + c / 64 % 64) as u8;
    buf[at - 1] = (128 + c % 64) as u8;
    at - 3
}

// The code point of a digit.
fn digit_code(d: u64) -> u32
    requires { d < 10 }
    ensures { Mark (digit (digit_of d) ∷ []) (Some result) }
{
    let codes: [u32; 10] = [
        0x96F6, 0x4E00, 0x4E8C, 0x4E09, 0x56DB, 0x4E94, 0x516D, 0x4E03, 0x516B, 0x4E5D,
    ];
    codes[d as usize]
}

// 零, or nothing.
fn zero_if(b: bool) -> Option<u32>
    ensures { Mark (zero_if b) result }
{
    b.then_some(0x96F6)
}

// Puts a digit of a group, where the digits before it say h.
fn put_digit(buf: &mut [u8; 192], at: usize, h: u64, d: u64, mark: Option<u32>) -> usize
    requires { (9 ≤ at) × (at ≤ 192) × (length buf.old ≡ 192) × (d < 10) × ((m : List Char) × Mark m mark) }
    ensures begins { (result ≤ at) × (at ≤ result + 9) × (length buf.new ≡ 192) }
    ensures stored { (m : List Char) → Mark m mark
        → Before buf.old at (utf8 (digit_part h d m)) result buf.new }
{
    if d == 0 {
        return at;
    }
    let a = put(buf, at, mark);
    let b = put(buf, a, Some(digit_code(d)));
    put(buf, b, zero_if((0 < h) & (h % 10 == 0)))
}

// Puts the four digits of a group.
fn put_digits(buf: &mut [u8; 192], at: usize, g: u64) -> usize
    requires { (36 ≤ at) × (at ≤ 192) × (length buf.old ≡ 192) }
    ensures begins { (result ≤ at) × (at ≤ result + 36) × (length buf.new ≡ 192) }
    ensures stored { Before buf.old at (utf8 (group g)) result buf.new }
{
    let tens = g / 10;
    let hundreds = tens / 10;
    let thousands = hundreds / 10;
    let a = put_digit(buf, at, tens, g % 10, None);
    let b = put_digit(buf, a, hundreds, tens % 10, Some(0x5341));
    let c = put_digit(buf, b, thousands, hundreds % 10, Some(0x767E));
    put_digit(buf, c, thousands / 10, thousands % 10, Some(0x5343))
}

// Puts a group, where the groups before it say h.
// Kept beside put_digit: one function for both would take the middle and the test for 零 as closures, and be no shorter.
fn put_group(buf: &mut [u8; 192], at: usize, h: u64, g: u64, mark: Option<u32>) -> usize
    requires { (42 ≤ at) × (at ≤ 192) × (length buf.old ≡ 192) × ((m : List Char) × Mark m mark) }
    ensures begins { (result ≤ at) × (at ≤ result + 42) × (length buf.new ≡ 192) }
    ensures stored { (m : List Char) → Mark m mark
        → Before buf.old at (utf8 (group_part h g m)) result buf.new }
{
    if g == 0 {
        return at;
    }
    let a = put(buf, at, mark);
    let b = put_digits(buf, a, g);
    put(buf, b, zero_if((0 < h) & (g < 1000)))
}

// Puts a number, at the end of the buffer.
fn put_number(buf: &mut [u8; 192], n: u64) -> usize
    requires { length buf.old ≡ 192 }
    ensures begins { (result ≤ 192) × (length buf.new ≡ 192) }
    ensures stored { Before buf.old 192 (utf8 (writing n)) result buf.new }
{
    if n == 0 {
        return put(buf, 192, Some(0x96F6));
    }
    let second = n / 10000;
    let third = second / 10000;
    let fourth = third / 10000;
    let a = put_group(buf, 192, second, n % 10000, None);
    let b = put_group(buf, a, third, second % 10000, Some(0x4E07));
    let c = put_group(buf, b, fourth, third % 10000, Some(0x5104));
    put_group(buf, c, fourth / 10000, fourth % 10000, Some(0x5146))
}

// Writes the numeral of n at the front of the output.
pub fn write_number(n: u64, out: &mut [u8]) -> Result<usize, WriteRefusal>
    ensures answer { result ≡ written n (length out.old) }
    ensures after { out.new ≡ output n out.old }
{
    if n > TOP {
        return Err(WriteRefusal::AboveTop);
    }
    let mut buf = [0u8; 192];
    let at = put_number(&mut buf, n);
    let len = 192 - at;
    if out.len() < len {
        return Err(WriteRefusal::TooShort);
    }
    fields::copy::copy_in(out, 0, &buf[at..]);
    Ok(len)
}

// The row that the program prints for a refusal, as text in a lent buffer. The words of the contracts are in specs/Printed.antt.
ghost use Rattle.std.specs.Prelude.{◌≤◌, length};
ghost use Rattle.numbers.specs.Call.{refused};
ghost use Rattle.answers.specs.Answers.{number, place};
ghost use Rattle.rows.specs.Printed.{TextIs};

use answers::Refusal;

// The row of a refusal, by its number and place, at the text's front. They have at most 20 digits each.
fn put_refused(text: &mut [u8], number: u64, place: u64) -> usize
    requires { 50 ≤ length text.old }
    ensures { TextIs text.old text.new result (refused number place) }
{
    let first = crate::columns::put_text(text, 0, b"refused", b' ');
    let second = crate::columns::put_number(text, first, number, b' ');
    crate::columns::put_number(text, second, place, b'\n')
}

// The row of a refusal of the call, at the text's front.
pub fn put_refusal(text: &mut [u8], r: Refusal) -> usize
    requires { 50 ≤ length text.old }
    ensures { TextIs text.old text.new result (refused (number r) (place r)) }
{
    let t = answers::refusal_told(r);
    put_refused(text, t.status as u64, t.at)
}

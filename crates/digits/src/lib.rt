// Decimal digits: the 680 characters of general category Nd in Unicode 15.0 (UAX #44), 68 runs of ten. The word of the contract is in specs/Digits.antt;
// specs/TextEnds.antt has those of `digits::ends`.
#![tactic(auto)]

pub mod ends; // ends.rt: whether a text begins or ends with one

ghost use Rattle.std.specs.Prelude.{◌≡◌, ◌≤◌};
ghost use Rattle.digits.specs.Digits.{digit_test};

// The first character of each run, in rising order; `tools/check_nd` holds it against UnicodeData.txt.
const STARTS: [u32; 68] = [
    0x30, 0x660, 0x6F0, 0x7C0, 0x966, 0x9E6, 0xA66, 0xAE6, 0xB66, 0xBE6, 0xC66, 0xCE6, 0xD66,
    0xDE6, 0xE50, 0xED0, 0xF20, 0x1040, 0x1090, 0x17E0, 0x1810, 0x1946, 0x19D0, 0x1A80, 0x1A90,
    0x1B50, 0x1BB0, 0x1C40, 0x1C50, 0xA620, 0xA8D0, 0xA900, 0xA9D0, 0xA9F0, 0xAA50, 0xABF0, 0xFF10,
    0x104A0, 0x10D30, 0x11066, 0x110F0, 0x11136, 0x111D0, 0x112F0, 0x11450, 0x114D0, 0x11650,
    0x116C0, 0x11730, 0x118E0, 0x11950, 0x11C50, 0x11D50, 0x11DA0, 0x11F50, 0x16A60, 0x16AC0,
    0x16B50, 0x1D7CE, 0x1D7D8, 0x1D7E2, 0x1D7EC, 0x1D7F6, 0x1E140, 0x1E2F0, 0x1E4F0, 0x1E950,
    0x1FBF0,
];

// What the digit test answers: whether the character is a decimal digit, and how many starts it was compared with.
#[derive(Clone, Copy)]
pub struct DigitTest {
    pub digit: bool,
    pub compared: usize,
}

// The starts are compared with `c` in rising order, up to the first that is above it: only the run before that one can hold `c`. The first two are compared
// before the loop: a table that is indexed by a variable is copied to the stack, and a character of ASCII needs no more than these two.
pub fn is_digit(c: u32) -> DigitTest
    ensures { result ≡ digit_test c }
{
    if c < STARTS[0] {
        return DigitTest {
            digit: false,
            compared: 1,
        };
    }
    if c < STARTS[1] {
        return DigitTest {
            digit: c - STARTS[0] <= 9,
            compared: 2,
        };
    }
    compare_from_third(c)
}

// The same where the first two starts are not above `c`.
fn compare_from_third(c: u32) -> DigitTest
    requires { 0x660 ≤ c }
    ensures { result ≡ digit_test c }
{
    let starts = STARTS;
    for n in 2..68 {
        if c < starts[n] {
            let past = c - starts[n - 1];
            let compared = n + 1;
            return DigitTest {
                digit: past <= 9,
                compared,
            };
        }
    }
    let past = c - starts[67];
    DigitTest {
        digit: past <= 9,
        compared: 68,
    }
}

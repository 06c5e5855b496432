// A string of the table at an offset, by its layout alone (01, "Table"), and what reading a record gives.
ghost use Rattle.std.specs.Prelude.{◌≡◌};
ghost use Rattle.table.specs.Layout.{text};
ghost use Rattle.table.specs.Answers.{text_field, TextWithin};

use fields::Part;
use text::Offset;

// The most bytes of a string.
pub const MAX_STRING: usize = 60;

// The numbers of a record, 0 where the map says that one is absent, and the offset behind them.
// Kept as numbers and not Options: the map beside them says which are there, and an Option of each would say it a second time.
#[derive(Clone, Copy)]
pub struct Numbers {
    pub value: u64,
    pub numerator: u64,
    pub denominator: u64,
    pub base: u64,
    pub mult: u64,
    pub next: usize,
}

// The numeric properties of a character: its record. What the map says is absent is 0 or empty.
#[derive(Clone, Copy)]
pub struct NumProp {
    pub code_point: u32,
    pub map: u8,
    pub num_type: Part,
    pub rom: Part,
    pub numbers: Numbers,
    pub script: Part,
    pub next: usize,
}

// The string at an offset.
pub fn text_at(s: &[u8], at: usize) -> Option<(Part, usize)>
    ensures result_value { text_field s.now result ≡ text s.now at }
    ensures within { TextWithin s.now result }
{
    if s.len() <= at {
        return None;
    }
    let len = s[at] as usize;
    if len > MAX_STRING {
        return None;
    }
    let start = at + 1;
    if s.len() - start < len {
        return None;
    }
    let part = Part {
        at: Offset(start),
        len: len,
    };
    Some((part, start + len))
}

// The code point of a sequence by its bytes (Unicode Standard, table 3-6): the bits of its lead byte, with six of each byte behind it. Modules `text::sequence` and `text::known` read by it.
ghost use Rattle.std.specs.Prelude.{◌≡◌, ◌+◌, ◌<◌, length};
ghost use Rattle.text.specs.Table.{six, bits};

pub fn widen(x: u8) -> u32
    ensures { result ≡ x }
{
    x as u32
}

// The code point so far with the six bits of a trailing byte behind it.
fn append_six_bits(c: u32, x: u8) -> u32
    requires { c < 32768 }
    ensures { result ≡ six c x }
{
    c * 64 + (x % 64) as u32
}

// The code point of a sequence of two, three and four bytes at an offset: lead has the bits of the first.
// Kept as three: each takes the one before it and one byte more, under a bound for lead of its own.
pub fn of_two(s: &[u8], at: usize, lead: u32) -> u32
    requires { (at + 1 < length s.now) × (lead < 32) }
    ensures { result ≡ bits s.now at lead 1 }
{
    append_six_bits(lead, s[at + 1])
}

pub fn of_three(s: &[u8], at: usize, lead: u32) -> u32
    requires { (at + 2 < length s.now) × (lead < 16) }
    ensures { result ≡ bits s.now at lead 2 }
{
    append_six_bits(of_two(s, at, lead), s[at + 2])
}

pub fn of_four(s: &[u8], at: usize, lead: u32) -> u32
    requires { (at + 3 < length s.now) × (lead < 8) }
    ensures { result ≡ bits s.now at lead 3 }
{
    append_six_bits(of_three(s, at, lead), s[at + 3])
}

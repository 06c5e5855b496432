// Whether bytes are ASCII, looked at 4 or 8 at once: a mask finds their highest bits.
ghost use Rattle.std.specs.Prelude.{◌≡◌, true, ℕ, ◌+◌, ◌≤◌, ◌<◌, length, get_or};
ghost use Rattle.record_check.specs.Ascii.{Ascii};

// Kept as two functions of a line: `low_eight` and `four_ascii` differ in the mask and in what `fields` reads, and one for both would need a trait for u32 and u64.
fn low_eight(s: &[u8], at: usize) -> bool
    requires at_in_bounds { at + 8 ≤ length s.now }
    requires bytes { (i : ℕ) → get_or s.now i 0 < 256 }
    ensures { result ≡ true → Ascii s.now at (at + 8) }
{
    fields::u64_at(s, at) & 0x8080808080808080 == 0
}

pub fn four_ascii(s: &[u8], at: usize) -> bool
    requires at_in_bounds { at + 4 ≤ length s.now }
    requires bytes { (i : ℕ) → get_or s.now i 0 < 256 }
    ensures { result ≡ true → Ascii s.now at (at + 4) }
{
    fields::u32_at(s, at) & 0x80808080 == 0
}

// So many bytes from an offset on, 8 to 24: the first 8, the middle 8 and the last 8.
pub fn ascii(s: &[u8], at: usize, n: usize) -> bool
    requires le_n { (8 ≤ n) × (n ≤ 24) × (at + n ≤ length s.now) }
    requires bytes { (i : ℕ) → get_or s.now i 0 < 256 }
    ensures { result ≡ true → Ascii s.now at (at + n) }
{
    let more = n - 8;
    low_eight(s, at) & low_eight(s, at + more / 2) & low_eight(s, at + more)
}

// Whether a string of up to 24 bytes is ASCII: a short one by the bytes that end with it, some of them before it.
// Of a longer one, or one behind bytes that are not ASCII, nothing is told.
pub fn short_ascii(s: &[u8], at: usize, len: usize) -> bool
    requires { at + len ≤ length s.now }
    ensures { result ≡ true → Ascii s.now at (at + len) }
{
    let end = at + len;
    if end < 8 {
        return false;
    }
    if 0x80 <= s[end - 1] {
        return false;
    }
    if len <= 4 {
        return four_ascii(s, end - 4);
    }
    if len <= 8 {
        return low_eight(s, end - 8);
    }
    if 24 < len {
        return false;
    }
    ascii(s, at, len)
}

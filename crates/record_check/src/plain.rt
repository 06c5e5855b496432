// Records as most of a table are, those of the plain table among them: with rom, value, base and script, no other field, and short ASCII strings.
// They are read and found legal in one go, by few tests: of a record that is not told by them nothing is said, and the general reading decides.
ghost use Rattle.std.specs.Prelude.{◌≡◌, ℕ, ◌+◌, ◌≤◌, ◌<◌, length, get_or};
ghost use Rattle.record_check.specs.Plain.{TailIs, FieldsIs, PlainIs};

use crate::ascii::{ascii, short_ascii};
use crate::plain_numbers::{legal_head, legal_numbers};

// The value and the base, and a script of at most 24 bytes. The rom stands before them, and the type, by its first byte, before the rom.
fn tail_end(s: &[u8], first: u8, rom: usize, at: usize) -> Option<usize>
    requires { (rom + 1 ≤ at) × (at < length s.now) }
    ensures { TailIs s.now first rom at result }
{
    if s.len() - at < 17 {
        return None;
    }
    let k = s[at + 16] as usize;
    if 24 < k {
        return None;
    }
    if s.len() - at - 17 < k {
        return None;
    }
    let next = at + 17 + k;
    if !short_ascii(s, at + 17, k) {
        return None;
    }
    if legal_numbers(s, first, rom, at) {
        Some(next)
    } else {
        None
    }
}

// The fields behind the map: a type of at most 8 bytes and a rom, 8 to 24 bytes with their lengths, and what stands behind them.
fn fields_end(s: &[u8], at: usize) -> Option<usize>
    requires { at + 28 ≤ length s.now }
    ensures { FieldsIs s.now at result }
{
    // most strings that are not ASCII are not from their first byte on
    if 0x80 <= s[at + 1] {
        return None;
    }
    let n = s[at] as usize;
    if 8 < n {
        return None;
    }
    let rom_at = at + 1 + n;
    let both = n + 2 + s[rom_at] as usize;
    if both < 8 {
        return None;
    }
    if 24 < both {
        return None;
    }
    if !ascii(s, at, both) {
        return None;
    }
    // behind the length of an empty type stands that of the rom: any byte will do there, since no such type is "digit"
    tail_end(s, s[at + 1], rom_at, at + both)
}

// The record at an offset, if it is told by few tests.
pub fn plain_at(s: &[u8], at: usize, least: u64) -> Option<(u32, usize)>
    ensures { PlainIs s.now at least result }
{
    if s.len() < 33 {
        return None;
    }
    if s.len() - 33 < at {
        return None;
    }
    if !legal_head(s, at, least) {
        return None;
    }
    let next = fields_end(s, at + 5)?;
    Some((fields::u32_at(s, at), next))
}

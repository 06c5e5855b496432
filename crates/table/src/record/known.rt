// A record whose layout was checked before, read by its map and its lengths alone.
ghost use Rattle.std.specs.Prelude.{◌≡◌, true, ℕ, ◌+◌, ◌*◌, ◌/◌, ◌%◌, ◌≤◌, ◌<◌, length};
ghost use Rattle.table.specs.Layout.{Is, read_numbers, read_record};
ghost use Rattle.table.specs.Answers.{number_if, numbers_of, record_of, Inside};
ghost use Rattle.table.specs.Walk.{part_if, Stands};

use crate::bits;
use crate::layout::{NumProp, Numbers};
use crate::record::walk::end_if;
use fields::Part;
use text::Offset;

// The bytes of a string, where it is there.
fn part_if(s: &[u8], at: usize, there: bool) -> Part
    requires { there ≡ true → at < length s.now }
    ensures { result ≡ part_if there s.now at }
{
    if there {
        Part {
            at: Offset(at + 1),
            len: s[at] as usize,
        }
    } else {
        Part {
            at: Offset(0),
            len: 0,
        }
    }
}

// A number that is there, or 0.
fn number_if(s: &[u8], at: usize, there: bool) -> u64
    requires { there ≡ true → at + 8 ≤ length s.now }
    ensures { result ≡ number_if there s.now at }
{
    if there { fields::u64_at(s, at) } else { 0 }
}

// The numbers of a record, by its map.
fn numbers_here(s: &[u8], map: u8, at: usize) -> Numbers
    requires { at + 8 * (map / 2 % 2 + 2 * (map / 4 % 2) + map / 8 % 2 + map / 16 % 2) ≤ length s.now }
    ensures { Is (numbers_of map result) result.next ≡ read_numbers map s.now at }
{
    let ratio = map / bits::FRACTION % 2;
    let numerator_at = at + 8 * (map / bits::VALUE % 2) as usize;
    let denominator_at = numerator_at + 8 * ratio as usize;
    let base_at = denominator_at + 8 * ratio as usize;
    let mult_at = base_at + 8 * (map / bits::BASE % 2) as usize;
    Numbers {
        value: number_if(s, at, map / bits::VALUE % 2 == 1),
        numerator: number_if(s, numerator_at, ratio == 1),
        denominator: number_if(s, denominator_at, ratio == 1),
        base: number_if(s, base_at, map / bits::BASE % 2 == 1),
        mult: number_if(s, mult_at, map / bits::MULT % 2 == 1),
        next: mult_at + 8 * (map / bits::MULT % 2) as usize,
    }
}

// The record at an offset.
pub fn record_here(s: &[u8], at: usize) -> NumProp
    requires { (next : ℕ) × Stands s.now at next }
    ensures { (Is (record_of s.now result) result.next ≡ read_record s.now at)
        × Inside s.now result }
{
    let map = s[at + 4];
    let num_type = part_if(s, at + 5, true);
    let rom_at = num_type.at.0 + num_type.len;
    let rom = part_if(s, rom_at, map / bits::ROM % 2 == 1);
    let numbers = numbers_here(s, map, end_if(s, rom_at, map / bits::ROM % 2 == 1));
    let script_at = numbers.next;
    let script = part_if(s, script_at, map / bits::SCRIPT % 2 == 1);
    NumProp {
        code_point: fields::u32_at(s, at),
        map: map,
        num_type: num_type,
        rom: rom,
        numbers: numbers,
        script: script,
        next: end_if(s, script_at, map / bits::SCRIPT % 2 == 1),
    }
}

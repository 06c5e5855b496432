// The offset behind a record, by its map and its lengths alone: all that a walk needs of the records that it passes. Their layout was checked before.
ghost use Rattle.std.specs.Prelude.{◌≡◌, true, ℕ, ◌<◌, length};
ghost use Rattle.table.specs.Walk.{end_if, Stands};

use crate::bits;

// Behind a string that is there or absent.
pub fn end_if(s: &[u8], at: usize, there: bool) -> usize
    requires { there ≡ true → at < length s.now }
    ensures { result ≡ end_if there s.now at }
{
    if there { at + 1 + s[at] as usize } else { at }
}

pub fn record_end(s: &[u8], at: usize) -> usize
    requires { (next : ℕ) × Stands s.now at next }
    ensures { Stands s.now at result }
{
    let map = s[at + 4];
    let rom_at = end_if(s, at + 5, true);
    let numbers_at = end_if(s, rom_at, map / bits::ROM % 2 == 1);
    let numbers = (map / bits::VALUE % 4 + map / bits::BASE % 2 + map / bits::MULT % 2) as usize;
    end_if(s, numbers_at + 8 * numbers, map / bits::SCRIPT % 2 == 1)
}

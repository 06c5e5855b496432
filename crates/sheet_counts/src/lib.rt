// How many rows of the proof sheet (02, S-8) stand in each 1,024 candidates, so that a page need not begin at the first. The rule of the table is one test that computes
// all rows (proofs/CountLaws.antt); it takes a while, and so has a crate of its own. The word of the contract is in specs/Numbered.antt.
#![tactic(auto)]

ghost use Rattle.std.specs.Prelude.{◌≡◌, ◌+◌, ◌*◌, ◌<◌};
ghost use Rattle.sheet_counts.specs.Numbered.{rows_in};

// The words of one and two characters, and how many of them have a row.
pub const SHORT: usize = 272;

pub const SHORT_ROWS: u64 = 257;

// The blocks behind them, and the candidates in each.
pub const BLOCKS: usize = 68;

pub const BLOCK: usize = 1024;

// Four blocks for the words of three characters, and four for each first character of those of four. Of these 一 to 八 have the same rows behind them, which stand once.
const COUNTS: [u64; 40] = [
    931, 976, 765, 778, 931, 976, 488, 559, 972, 972, 763, 778, 969, 968, 761, 774, 208, 168, 84,
    559, 449, 340, 252, 559, 844, 836, 695, 559, 586, 612, 436, 141, 717, 756, 555, 326, 822, 864,
    658, 538,
];

// The rows of a block.
pub fn rows_in(block: usize) -> u64
    requires { block < 68 }
    ensures { result ≡ rows_in 1024 (272 + 1024 * block) }
{
    if block < 12 {
        return COUNTS[block];
    }
    if block < 40 {
        return COUNTS[8 + block % 4];
    }
    COUNTS[block - 28]
}

// Runs `call::add_numbers` on the cases of tools/replay_cases.py, and writes its answers: `stdout` has the old program's. A case is three u16 lengths (the head), and then so
// many bytes of line, table (none: the one before) and edge list. An answer is a u32 length and so many bytes: the listing, or 5 bytes for a refusal: u8 number, u32 place or
// offset. Which case is the first that differs: `tools/replay_cases.py differ`.
#![tactic(auto)]

ghost use Rattle.std.specs.Prelude.{◌≤◌, length};

use answers::CStatus;
use call::WORK_SIZE;
use lattice::MOST_BYTES;

// A proved loop has to end, and nothing says that the input does: no more cases are read than this.
const MOST: u64 = 1000000;

// As many bytes as the head says at an offset, to the start of a buffer. Where it says none, there are still those before.
fn read(head: &[u8; 6], at: usize, space: &mut [u8], before: usize) -> usize
    requires { (at ≤ 4) × (65536 ≤ length space.old) × (before ≤ length space.old) }
    ensures { result ≤ length space.new }
{
    let n = fields::u16_at(head, at) as usize;
    if n == 0 {
        return before;
    }
    if io::read_full(0, &mut space[0..n]) < n {
        io::write_all(1, b"a case is cut off\n");
    }
    n
}

fn write_u32(v: u64) {
    let b = [
        (v % 256) as u8,
        (v / 256 % 256) as u8,
        (v / 65536 % 256) as u8,
        (v / 16777216 % 256) as u8,
    ];
    io::write_all(1, &b);
}

fn write_refusal(t: CStatus) {
    let b = [5, 0, 0, 0, (t.status % 256) as u8];
    io::write_all(1, &b);
    write_u32(t.at);
}

fn answer(line: &[u8], table: &[u8], edges: &[u8]) {
    let mut work = [0u8; WORK_SIZE];
    let mut out = [0u8; MOST_BYTES];
    match call::add_numbers(line, table, edges, &mut work, &mut out) {
        Ok(n) => {
            write_u32(n as u64);
            io::write_all(1, &out[..n]);
        }
        Err(r) => {
            write_refusal(call::refusal_told(r));
        }
    }
}

// A case, with the length of the table before it. Returns that of its own.
fn case(head: &[u8; 6], table: &mut [u8], before: usize) -> usize
    requires { (65536 ≤ length table.old) × (before ≤ length table.old) }
    ensures { result ≤ length table.new }
{
    let mut line = io::large_buffer();
    let mut edges = io::large_buffer();
    let l = read(head, 0, &mut line, 0);
    let t = read(head, 2, table, before);
    let e = read(head, 4, &mut edges, 0);
    answer(&line[0..l], &table[0..t], &edges[0..e]);
    t
}

fn main() {
    let mut head = [0u8; 6];
    let mut table = [0u8; 65536];
    let mut t = 0;
    'cases: for _ in 0..MOST {
        let got = io::read_full(0, &mut head);
        if got < 6 {
            // What is left of a cut head is no answer: every answer is longer.
            io::write_all(1, &head[..got]);
            return;
        }
        t = case(&head, &mut table, t);
    }
}

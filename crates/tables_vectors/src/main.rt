// Asks for the two tables that the library has, with outputs of a byte less than a table, of just a table, and longer. Each row of standard output is the table's name, the
// output's length, status and `at`, then three bytes of the output, which held 170s: the first, one in which the tables differ (of the first record's character, 一 or 仟),
// the last.
#![tactic(auto)]

ghost use Rattle.std.specs.Prelude.{◌≤◌, length};

use rilvostam::tables;

fn print_byte(b: u8) {
    vectors::say(b" ", b as u64);
}

fn print_row(name: &[u8], status: u32, at: u64, out: &[u8])
    requires { 581 ≤ length out.now }
{
    io::write_all(1, name);
    vectors::say(b" ", out.len() as u64);
    vectors::say(b": ", status as u64);
    vectors::say(b" ", at);
    io::write_all(1, b";");
    print_byte(out[0]);
    print_byte(out[27]);
    print_byte(out[out.len() - 1]);
    io::write_all(1, b"\n");
}

// The answer for an output of N bytes.
fn ask<const N: usize, F: FnOnce(&mut [u8], &mut u64) -> u32>(name: &[u8], table: F)
    requires room { (581 ≤ N) × (N ≤ 4096) }
    requires callable { F.IsAlwaysCallable table }
{
    let mut out = [170u8; N];
    let mut at: u64 = 9;
    let status = table(&mut out, &mut at);
    print_row(name, status, at, &out);
}

fn main() {
    ask::<581, _>(b"plain", |out, at| tables::rilvostam_plain_table(out, at));
    ask::<582, _>(b"plain", |out, at| tables::rilvostam_plain_table(out, at));
    ask::<600, _>(b"plain", |out, at| tables::rilvostam_plain_table(out, at));
    ask::<581, _>(b"formal", |out, at| tables::rilvostam_formal_table(out, at));
    ask::<582, _>(b"formal", |out, at| tables::rilvostam_formal_table(out, at));
    ask::<600, _>(b"formal", |out, at| tables::rilvostam_formal_table(out, at));
}

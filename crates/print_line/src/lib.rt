// The program of 01: reads one line from standard input and prints its rows with the plain table. A read or a write that fails is answered as the error, and
// then no line is taken for read and no row for printed. The words of the contracts are in specs/LineRows.antt.
#![tactic(auto)]

pub mod read; // read.rt: a line from standard input

ghost use Rattle.std.specs.Prelude.{◌≤◌, length};
ghost use Rattle.numbers.specs.Call.{add_numbers, no_edges};
ghost use Rattle.rows.specs.Printed.{TextIs};
ghost use Rattle.print_line.specs.LineRows.{plain_answer};

use crate::read::Got;
use call::WORK_SIZE;
use lattice::MOST_BYTES;
use std::io::{Input, Print, Write};

// The text of a line with a table and no given edges. The rows of a listing that the call answers fit 65,536 bytes.
fn answer_line(line: &[u8], table: &[u8], work: &mut [u8], out: &mut [u8], text: &mut [u8]) -> usize
    requires { 65536 ≤ length text.old }
    ensures { TextIs text.old text.new result
        (add_numbers line.now table.now no_edges (length work.old)
        (length out.old)) }
{
    match call::add_numbers(line, table, b"\x00\x00", work, out) {
        Ok(n) => rows::listing::put_rows(text, &out[..n]),
        Err(r) => rows::refusal::put_refusal(text, r),
    }
}

// The text of a line with the plain table, in the program's own work space and output: up to where it goes.
fn plain_rows(line: &[u8], text: &mut [u8; 65536]) -> usize
    ensures { TextIs text.old text.new result (plain_answer line.now) }
{
    let table = grammar::plain_table::plain_table();
    let mut work = [0u8; WORK_SIZE];
    let mut out = [0u8; MOST_BYTES];
    answer_line(line, &table, &mut work, &mut out, text)
}

fn print<R: Print>(rt: &R, text: &[u8]) -> std::io::Result<()> {
    std::io::writer(rt).write_all(text)
}

// Prints the rows of a line, or of its refusal.
pub fn print_rows<R: Print>(rt: &R, line: &[u8]) -> std::io::Result<()> {
    let mut text = io::large_buffer();
    let n = plain_rows(line, &mut text);
    print(rt, &text[..n])
}

fn answer_into<R: Input + Print>(rt: &R, buf: &mut [u8]) -> std::io::Result<()> {
    let mut input = rt.reader();
    let got = crate::read::read_line(&mut input, buf)?;
    match got {
        Got::Line(n) => print_rows(rt, &buf[..n]),
        Got::LastLine(n) => print_rows(rt, &buf[..n]),
    }
}

// Reads a line of at most 4,096 bytes and prints its rows.
pub fn print_line<R: Input + Print>(rt: &R) -> std::io::Result<()> {
    let mut buf = io::buffer();
    answer_into(rt, &mut buf)
}

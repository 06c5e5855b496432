// Prints pages of the proof sheet (02, S-8): at its start, across each change of length, at its end and past it, and with outputs that hold no row, one row and one byte less.
// A page is a row of position, room, bytes and the position after it, and then the whole output, whose bytes were dots. `tools/model/numerals.py vectors S-8` writes the
// expected answers.
#![tactic(auto)]

ghost use Rattle.std.specs.Prelude.{◌≤◌};

fn show_in(position: u64, room: usize, out: &mut [u8]) {
    let page = sheet::proof_sheet(position, out);
    io::print_decimal(1, position);
    io::write_all(1, b" ");
    io::print_decimal(1, room as u64);
    io::write_all(1, b" ");
    io::print_decimal(1, page.bytes as u64);
    io::write_all(1, b" ");
    io::print_decimal(1, page.next);
    io::write_all(1, b"\n");
    io::write_all(1, out);
    io::write_all(1, b"\n");
}

// The page from a position on, for an output of so many bytes.
fn show(position: u64, room: usize)
    requires { room ≤ 200 }
{
    let mut out = [46u8; 200];
    show_in(position, room, &mut out[..room]);
}

// The first row, 零 and 0, has six bytes.
fn start() {
    show(0, 200);
    show(0, 0);
    show(0, 5);
    show(0, 6);
    show(0, 7);
    show(0, 11);
    show(0, 12);
}

// From one character to two, from two to three, from three to four.
fn lengths() {
    show(10, 200);
    show(250, 200);
    show(257, 200);
    show(3700, 200);
    show(3707, 200);
}

// The longest rows have 30 bytes. 一零千兆 and 九千八兆 are above TOP, and have none.
fn long_rows() {
    show(4107, 30);
    show(4107, 29);
    show(6861, 200);
    show(37358, 200);
}

fn end() {
    show(50570, 200);
    show(50576, 200);
    show(50576, 27);
    show(50576, 26);
    show(50577, 200);
    show(50577, 0);
    show(50578, 200);
    show(69904, 200);
    show(18446744073709551615, 200);
}

fn main() {
    start();
    lengths();
    long_rows();
    end();
}

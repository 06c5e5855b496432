// One line from standard input (01: "reads one line from standard input, up to a newline, the end or 4,096 bytes"). A failed read is told apart
// from the end, so that no line is taken for whole that is not.
ghost use Rattle.std.specs.Prelude.{◌≡◌, ◌+◌, ◌≤◌, ◌<◌, length, take, drop, IfOk};
ghost use Rattle.print_line.specs.Line.{until_newline, OnALine, StepIs, LineIs};

use std::io::Read;

// What was read, a line of so many bytes at the buffer's front: behind it stands a newline, or the buffer ends; or the input ended behind it.
#[derive(Clone, Copy)]
pub enum Got {
    Line(usize),
    LastLine(usize),
}

// What one read leaves: the line ends at the newline there, or goes on behind so many bytes; or the input has ended.
#[derive(Clone, Copy)]
enum Step {
    Ends(usize),
    Goes(usize),
    Nothing,
}

// Where the line that goes on at an offset ends.
pub fn line_end(s: &[u8], from: usize) -> usize
    requires { from ≤ length s.now }
    ensures { (result ≡ from + length (until_newline (drop from s.now))) × (result ≤ length s.now) }
{
    vectors::until(s, from, b'\n')
}

// The same within the first bytes of a buffer.
fn end_within(buf: &[u8], from: usize, to: usize) -> usize
    requires { (from ≤ to) × (to ≤ length buf.now) }
    ensures { (result ≡ from + length (until_newline (drop from (take to buf.now)))) × (result ≤ to) }
{
    line_end(&buf[..to], from)
}

// Reads once, behind the n bytes that are there.
fn read_behind<I: Read>(input: &mut I, buf: &mut [u8], n: usize) -> std::io::Result<usize>
    requires { n ≤ length buf.old }
    ensures kept { take n buf.new ≡ take n buf.old }
    ensures within { IfOk result (λ more. n + more ≤ length buf.new) }
{
    input.read(&mut buf[n..])
}

// Reads once, behind the n bytes that are there, and looks where the line ends.
fn read_more<I: Read>(input: &mut I, buf: &mut [u8], n: usize) -> std::io::Result<Step>
    requires { (n ≤ length buf.old) × OnALine (take n buf.old) }
    ensures { IfOk result (StepIs n buf.new) }
{
    let more = read_behind(input, buf, n)?;
    if more == 0 {
        return Ok(Step::Nothing);
    }
    let to = n + more;
    let end = end_within(buf, n, to);
    if end < to {
        return Ok(Step::Ends(end));
    }
    Ok(Step::Goes(to))
}

// Reads a line into the buffer, as many bytes of it as fit.
pub fn read_line<I: Read>(input: &mut I, buf: &mut [u8]) -> std::io::Result<Got>
    ensures { IfOk result (LineIs buf.new) }
{
    let mut n = 0;
    while n < buf.len() {
        match read_more(input, buf, n)? {
            Step::Nothing => return Ok(Got::LastLine(n)),
            Step::Ends(end) => return Ok(Got::Line(end)),
            Step::Goes(to) => n = to,
        }
    }
    Ok(Got::Line(n))
}

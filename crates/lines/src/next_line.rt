// Where a line ends: before a newline, or at the end of the bytes.
ghost use Rattle.std.specs.Prelude.{◌≡◌, true, ◌+◌, ◌≤◌, ◌<◌, length};
ghost use Rattle.lines.specs.Lines.{NoNewline, LineAt};

const NEWLINE: u8 = 10;

// The end of a line, and where the next one begins.
#[derive(Clone, Copy)]
pub struct LineEnd {
    pub end: usize,
    pub next: usize,
}

// Whether eight bytes follow and none of them is a newline: compared with no branch between, so that one instruction compares them.
fn none_in_eight(lines: &[u8], i: usize) -> bool
    requires { i ≤ length lines.now }
    ensures { result ≡ true → (i + 8 ≤ length lines.now) × NoNewline lines.now i (i + 8) }
{
    if lines.len() - i < 8 {
        return false;
    }
    (lines[i] != NEWLINE)
        & (lines[i + 1] != NEWLINE)
        & (lines[i + 2] != NEWLINE)
        & (lines[i + 3] != NEWLINE)
        & (lines[i + 4] != NEWLINE)
        & (lines[i + 5] != NEWLINE)
        & (lines[i + 6] != NEWLINE)
        & (lines[i + 7] != NEWLINE)
}

// An offset up to which no newline stands, by eights: fewer than eight bytes follow it, or a newline is among them.
fn skip(lines: &[u8], at: usize) -> usize
    requires { at ≤ length lines.now }
    ensures { (at ≤ result) × (result ≤ length lines.now) × NoNewline lines.now at result }
{
    let mut i = at;
    // Kept as an index loop: it goes by eights to an offset, and `chunks_exact` would give the bytes without it.
    while none_in_eight(lines, i) {
        i += 8;
    }
    i
}

// The line that begins at an offset.
pub fn line_at(lines: &[u8], at: usize) -> LineEnd
    requires { at < length lines.now }
    ensures { LineAt lines.now at result }
{
    for i in skip(lines, at)..lines.len() {
        if lines[i] == NEWLINE {
            return LineEnd {
                end: i,
                next: i + 1,
            };
        }
    }
    LineEnd {
        end: lines.len(),
        next: lines.len(),
    }
}

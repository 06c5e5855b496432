// Refusals 2 and 3 of a line. The words of the contract are in `text`'s specs/Line.antt.
ghost use Rattle.text.specs.Line.{LineAnswer};

use crate::{LineRefusal, Place};

// The most characters that a line may have.
pub const MAX_CHARS: usize = 256;

// The most places that a line may have, its end included.
pub const PLACES: usize = 257;

// Refusals 2 and 3. The whole line is looked at for 2 before 3 is asked; an accepted line is walked once.
pub fn check_line(line: &[u8]) -> Result<usize, LineRefusal>
    ensures { LineAnswer line.now result }
{
    let w = crate::line::walk(line, line.len());
    let at = w.at;
    if at.0 < line.len() {
        return Err(LineRefusal::IllFormed(at));
    }
    if w.count <= MAX_CHARS {
        return Ok(w.count);
    }
    Err(LineRefusal::TooLong(crate::line::offset_of(line, Place(MAX_CHARS))))
}

// The offsets of all places of a line, by one walk over it.
ghost use Rattle.std.specs.Prelude.{◌≡◌, true, ◌≤◌, length};
ghost use Rattle.text.specs.Text.{chars, well_formed};
ghost use Rattle.text.specs.Line.{max_chars, PLACES};
ghost use Rattle.numbers.specs.Ready.{Offsets};

use text::Offset;
use text::check::PLACES;

// The offset of each place of a well-formed line of at most 256 characters, its end included; the rest of offs stays as it was.
pub fn place_offsets(line: &[u8], offs: &mut [usize; PLACES])
    requires { (well_formed line.now ≡ true) × (length (chars line.now) ≤ max_chars)
        × (length offs.old ≡ PLACES) }
    ensures { Offsets line.now offs.new }
{
    let mut count = 0;
    let mut at = 0;
    // Kept as a while loop: the step is the length of a character, which no iterator of std over bytes gives.
    while at < line.len() {
        offs[count] = at;
        let c = text::known::char_at(line, Offset(at));
        count += 1;
        at += c.len;
    }
    offs[count] = at;
}

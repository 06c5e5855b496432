// Whether a line has a marker at all (01, "The rest of the call"): each text is looked for at all places, so that it is read from the table only once. The
// definitions are those of `markers`.
ghost use Rattle.std.specs.Prelude.{◌≡◌, true, ◌≤◌, length};
ghost use Rattle.text.specs.Text.{chars, well_formed};
ghost use Rattle.text.specs.Line.{max_chars};
ghost use Rattle.table.specs.Layout.{list_at};
ghost use Rattle.table.specs.Answers.{table_of};
ghost use Rattle.numbers.specs.Ready.{Ready, Offsets};
ghost use Rattle.markers.specs.Marks.{Formed, stands_from, any_stands, marked};

use table::shape::Shape;
use text::check::PLACES;

// Whether the bytes of a marker stand at one of the line's places.
fn stands_somewhere(line: &[u8], offs: &[usize; PLACES], places: usize, marker: &[u8]) -> bool
    requires { Offsets line.now offs.now × (length (chars line.now) ≡ places) × (places ≤ max_chars)
        × (well_formed marker.now ≡ true) }
    ensures { result ≡ stands_from (chars line.now) 0 places marker.now }
{
    for p in 0..places {
        if crate::stands(line, offs[p], marker) {
            return true;
        }
    }
    false
}

// Whether a text of a list of the table stands at one of the line's places.
fn any_of(line: &[u8], offs: &[usize; PLACES], places: usize, table: &[u8], list: usize) -> bool
    requires { Offsets line.now offs.now × (length (chars line.now) ≡ places) × (places ≤ max_chars)
        × Formed (list_at table.now list) }
    ensures { result ≡ any_stands (chars line.now) 0 places (list_at table.now list) }
{
    for marker in crate::texts::texts_of(table, list) {
        if stands_somewhere(line, offs, places, marker) {
            return true;
        }
    }
    false
}

// Whether a marker stands at one of the line's places.
pub fn any_marker(
    line: &[u8],
    offs: &[usize; PLACES],
    table: &[u8],
    shape: Shape,
    places: usize,
) -> bool
    requires { Ready line.now table.now shape places × Offsets line.now offs.now }
    ensures { result ≡ marked (table_of table.now shape) (chars line.now) }
{
    any_of(line, offs, places, table, shape.percentages)
        || any_of(line, offs, places, table, shape.connectors)
}

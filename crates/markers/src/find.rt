// The marker that counts at a place of the line (01, "The rest of the call"): the longest that stands there. The definitions are those of `markers`.
ghost use Rattle.std.specs.Prelude.{◌≡◌, ℕ, ◌≤◌, ◌<◌, length};
ghost use Rattle.text.specs.Text.{chars};
ghost use Rattle.table.specs.Layout.{list_at};
ghost use Rattle.table.specs.Answers.{table_of};
ghost use Rattle.numbers.specs.Fractions.{longer, marker_at};
ghost use Rattle.numbers.specs.Ready.{Ready, Offsets};
ghost use Rattle.markers.specs.Marks.{size_at, longest_at, marker_of};

use crate::Marker;
use table::shape::Shape;
use text::Place;
use text::check::PLACES;

// How many characters a text has, if it stands at an offset of the line; 0 where it does not.
fn size_at(line: &[u8], at: usize, marker: &[u8]) -> usize
    requires { at ≤ length line.now }
    ensures { result ≡ size_at line.now at marker.now }
{
    if crate::stands(line, at, marker) {
        text::line::walk(marker, marker.len()).count
    } else {
        0
    }
}

// The longest text of a list of the table that stands at an offset of the line, in characters.
fn longest_in(line: &[u8], at: usize, table: &[u8], list: usize) -> usize
    requires { at ≤ length line.now }
    ensures { result ≡ longest_at line.now at (list_at table.now list) }
{
    let mut best = 0;
    for marker in crate::texts::texts_of(table, list) {
        best = best.max(size_at(line, at, marker));
    }
    best
}

// The longer of a percentage marker and a connector, by their lengths: the percentage first at equal length.
fn longer_of(percentage: usize, connector: usize) -> Option<Marker>
    ensures { marker_of result ≡ longer percentage connector }
{
    if percentage == 0 && connector == 0 {
        None
    } else if connector <= percentage {
        Some(Marker::Percentage(percentage))
    } else {
        Some(Marker::Connector(connector))
    }
}

// The marker that counts at a place.
pub fn marker_at(
    line: &[u8],
    offs: &[usize; PLACES],
    table: &[u8],
    shape: Shape,
    here: Place,
) -> Option<Marker>
    requires { ((n : ℕ) × Ready line.now table.now shape n) × Offsets line.now offs.now
        × (here.0 < length (chars line.now)) }
    ensures { marker_of result ≡ marker_at (table_of table.now shape) (chars line.now)
        here.0 }
{
    let at = offs[here.0];
    let percentage = longest_in(line, at, table, shape.percentages);
    let connector = longest_in(line, at, table, shape.connectors);
    longer_of(percentage, connector)
}

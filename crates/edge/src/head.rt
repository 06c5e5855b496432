// The head of an edge in its listing.
ghost use Rattle.std.specs.Prelude.{◌≡◌, ◌≤◌, length};
ghost use Rattle.edge.specs.Layout.{head_end};
ghost use Rattle.edge.specs.View.{view_at};

use crate::EdgeView;
use text::{Offset, Place};

// The head of the edge at an offset.
pub fn edge_at(s: &[u8], at: usize) -> EdgeView
    requires { head_end s.now at ≤ length s.now }
    ensures { result ≡ view_at s.now at }
{
    let ty = crate::text_at(s, at + 6);
    let txt = crate::text_at(s, ty.at.0 + ty.len);
    EdgeView {
        map: fields::u16_at(s, at),
        start: Place(fields::u16_at(s, at + 2) as usize),
        end: Place(fields::u16_at(s, at + 4) as usize),
        ty,
        txt,
        fields: Offset(txt.at.0 + txt.len),
    }
}

// The rows of all edges of a listing, one below the other. The words of the contracts are in specs/ListingRows.antt and specs/Printed.antt.
ghost use Rattle.numbers.specs.Call.{listing};
ghost use Rattle.rows.specs.ListingRows.{RowsFit};
ghost use Rattle.rows.specs.Printed.{TextIs};

// The rows of the edges of the listing s, from the text's front on.
pub fn put_rows(text: &mut [u8], s: &[u8]) -> usize
    requires { RowsFit s.now text.old }
    ensures { TextIs text.old text.new result (listing s.now) }
{
    let count = fields::u16_at(s, 0) as usize;
    let mut from = 2;
    let mut at = 0;
    for _ in 0..count {
        at = crate::put_row(text, at, s, from);
        from = edge::next::next_at(s, from);
    }
    at
}

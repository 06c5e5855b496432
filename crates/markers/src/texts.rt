// The texts of a list of the table, one after the other: what goes over markers and over signs takes them from here.
ghost use Rattle.std.specs.Prelude.{◌≡◌};
ghost use Rattle.std.specs.Iterator.{YieldsFirstRef, item_count};
ghost use Rattle.table.specs.Layout.{list_at};
ghost use Rattle.markers.specs.Texts.{texts_left};

// The texts that are still to come: so many, from an offset of the table on. They end where the layout of one does not hold.
#[derive(Drop)]
pub struct Texts<'a> {
    table: &'a [u8],
    next: usize,
    left: usize,
}

impl<'a> Iterator for Texts<'a> {
    type Item = &'a [u8];

    ghost next_gives = { YieldsFirstRef texts_left };

    ghost remaining = { item_count texts_left };

    fn next(&mut self) -> Option<&'a [u8]> {
        if self.left == 0 {
            return None;
        }
        let (text, behind) = table::layout::text_at(self.table, self.next)?;
        self.next = behind;
        self.left -= 1;
        let from = text.at.0;
        let to = from + text.len;
        Some(&self.table[from..to])
    }
}

// The texts of a list of the table.
pub fn texts_of(table: &[u8], list: usize) -> Texts<'_>
    ensures { texts_left result ≡ list_at table.now list }
{
    if table.len() <= list {
        return Texts {
            table,
            next: list,
            left: 0,
        };
    }
    Texts {
        table,
        next: list + 1,
        left: table[list] as usize,
    }
}

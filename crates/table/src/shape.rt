// What the check of a table answers (crate `table_check`): the table's shape, or a refusal.
ghost use Rattle.std.specs.Prelude.{◌≡◌};
ghost use Rattle.table.specs.Check.{cause_number, refusal_at};

use text::Offset;

// Why bytes are no table: by their layout, or bytes left over (refusal 4); by their content (refusal 5).
#[derive(Clone, Copy)]
pub enum Cause {
    Layout,
    Content,
}

impl Cause {
    // 01's number of the refusal.
    pub fn number(self) -> u8
        ensures { result ≡ cause_number self }
    {
        match self {
            Cause::Layout => 4,
            Cause::Content => 5,
        }
    }

    // The refusal for this cause, with its offset.
    pub fn refusal_at(self, at: usize) -> TableRefusal
        ensures { result ≡ refusal_at self at }
    {
        TableRefusal {
            cause: self,
            at: Offset(at),
        }
    }
}

// A refusal of a table: its cause, and the offset that is answered with it.
#[derive(Clone, Copy)]
pub struct TableRefusal {
    pub cause: Cause,
    pub at: Offset,
}

// Where each list begins, at its count; how many records there are and where they begin.
#[derive(Clone, Copy)]
pub struct Shape {
    pub percentages: usize,
    pub connectors: usize,
    pub plus: usize,
    pub minus: usize,
    pub count: usize,
    pub records: usize,
}

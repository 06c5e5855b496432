// A column of a row that the program prints: a text or a number and the byte that ends it, in a lent buffer.
ghost use Rattle.std.specs.Prelude.{◌≡◌, ◌+◌, ◌≤◌, length};
ghost use Rattle.whole.specs.Decimal.{decimal};
ghost use Rattle.edge.specs.Write.{Put};
ghost use Rattle.rows.specs.Columns.{ended};

// A text and the byte that ends it.
pub fn put_text(out: &mut [u8], at: usize, t: &[u8], by: u8) -> usize
    requires { at + length t.now + 1 ≤ length out.old }
    ensures { Put out.old out.new at result (ended t.now by) }
{
    fields::copy::copy_in(out, at, t);
    let end = at + t.len();
    out[end] = by;
    end + 1
}

// How long a number and the byte that ends it are.
pub fn number_len(n: u64) -> usize
    ensures { (result ≡ length (decimal n) + 1) × (result ≤ 21) }
{
    whole::decimal::decimal_len(n) + 1
}

// A number in decimal and the byte that ends it.
pub fn put_number(out: &mut [u8], at: usize, n: u64, by: u8) -> usize
    requires { at + length (decimal n) + 1 ≤ length out.old }
    ensures { Put out.old out.new at result (ended (decimal n) by) }
{
    let end = whole::decimal::put_decimal(out, at, n);
    out[end] = by;
    end + 1
}

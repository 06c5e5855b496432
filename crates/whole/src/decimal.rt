// Whole numbers in decimal: what the Rust has `format!` for. Decimal text is `decimal` of `whole`'s specs/Decimal.antt.
ghost use Rattle.std.specs.Prelude.{◌≡◌, ◌+◌, ◌≤◌, length};
ghost use Rattle.std.proofs.lemmas.List.Edits.{sets};
ghost use Rattle.whole.specs.Decimal.{decimal, padded};

// How many bytes the decimal text of n has: four digits are told by comparing, without a division.
pub fn decimal_len(n: u64) -> usize
    ensures { result ≡ length (decimal n) }
{
    if n < 10 {
        return 1;
    }
    if n < 100 {
        return 2;
    }
    if n < 1000 {
        return 3;
    }
    if n < 10000 {
        return 4;
    }
    decimal_len(n / 10000) + 4
}

// Writes the last len digits of n at an offset, leading zeros kept.
pub fn put_padded(out: &mut [u8], at: usize, len: usize, n: u64)
    requires { at + len ≤ length out.old }
    ensures { out.new ≡ sets out.old at (padded len n) }
{
    let mut rest = n;
    for i in (0..len).rev() {
        out[at + i] = (48 + rest % 10) as u8;
        rest = rest / 10;
    }
}

// Writes the decimal text of n at an offset, and answers the offset behind it.
pub fn put_decimal(out: &mut [u8], at: usize, n: u64) -> usize
    requires { at + length (decimal n) ≤ length out.old }
    ensures next { result ≡ at + length (decimal n) }
    ensures written { out.new ≡ sets out.old at (decimal n) }
{
    let len = decimal_len(n);
    put_padded(out, at, len, n);
    at + len
}

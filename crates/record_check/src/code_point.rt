// What the code point of a record may be (01, cause 5): a scalar value above that of the record before.
ghost use Rattle.std.specs.Prelude.{◌≡◌};
ghost use Rattle.table.specs.Check.{legal_code_point};

// A scalar value, and at least `least`.
pub fn legal_code_point(c: u32, least: u64) -> bool
    ensures { result ≡ legal_code_point least c }
{
    if (c as u64) < least {
        return false;
    }
    char::from_u32(c).is_some()
}

// A number of a record, or a fraction, that may be absent: its layout (01, cause 4) and what it may be (cause 5) in one look. Module `record_check::number_fields` looks at all of them.
ghost use Rattle.std.specs.Prelude.{◌≡◌};
ghost use Rattle.table.specs.Layout.{map_field, number, fraction, optional};
ghost use Rattle.table.specs.Check.{all_of, legal_ratio};
ghost use Rattle.record_check.specs.Look.{look_field, from_least};

use whole::TOP;

// A number that is there: it is from least to TOP.
pub fn number_look(s: &[u8], at: usize, there: bool, least: u64) -> Option<(bool, usize)>
    ensures { look_field result ≡ map_field (all_of (from_least least))
        (optional there (number 8) s.now at) }
{
    if !there {
        return Some((true, at));
    }
    if s.len() < 8 {
        return None;
    }
    if s.len() - 8 < at {
        return None;
    }
    let n = fields::u64_at(s, at);
    Some(((least <= n) & (n <= TOP), at + 8))
}

// A fraction that is there: numerator and denominator.
pub fn ratio_look(s: &[u8], at: usize, there: bool) -> Option<(bool, usize)>
    ensures { look_field result ≡ map_field (all_of legal_ratio) (optional there fraction s.now at) }
{
    let (numerator, denominator_at) = number_look(s, at, there, 0)?;
    let (denominator, next) = number_look(s, denominator_at, there, 1)?;
    Some((numerator & denominator, next))
}

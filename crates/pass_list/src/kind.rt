// The kind of an edge of the pass list: a character's, or one that a pass joined. The definitions are in specs/Kind.antt.
ghost use Rattle.std.specs.Prelude.{◌≡◌, eqb};
ghost use Rattle.pass_list.specs.Kind.{kind_number, kind_from};

use crate::run::Pass;

#[derive(Clone, Copy)]
pub enum Kind {
    Character,
    Joined(Pass),
}

// The number that is stored for a kind.
impl From<Kind> for u16 {
    ghost from_gives = { λ kind number. number ≡ kind_number kind };

    fn from(kind: Kind) -> u16 {
        match kind {
            Kind::Character => 0,
            Kind::Joined(Pass::D1) => 1,
            Kind::Joined(Pass::G1) => 2,
            Kind::Joined(Pass::G2) => 3,
            Kind::Joined(Pass::G3) => 4,
            Kind::Joined(Pass::G4) => 5,
        }
    }
}

// The kind that a stored number says.
impl From<u16> for Kind {
    ghost from_gives = { λ number kind. kind ≡ kind_from number };

    #[tactic(auto, unfolding(crate::specs::Kind::kind_from))]
    fn from(number: u16) -> Kind {
        match number {
            0 => Kind::Character,
            1 => Kind::Joined(Pass::D1),
            2 => Kind::Joined(Pass::G1),
            3 => Kind::Joined(Pass::G2),
            4 => Kind::Joined(Pass::G3),
            _ => Kind::Joined(Pass::G4),
        }
    }
}

pub fn is_character(kind: Kind) -> bool
    ensures { result ≡ eqb (kind_number kind) 0 }
{
    matches!(kind, Kind::Character)
}

// Whether D1 joined the edge: it is a row of digits.
pub fn is_row(kind: Kind) -> bool
    ensures { result ≡ eqb (kind_number kind) 1 }
{
    matches!(kind, Kind::Joined(Pass::D1))
}

// The arithmetic of Residue.
ghost use Rattle.std.specs.Prelude.{◌≡◌};
ghost use Rattle.residues.specs.Residues.{residue, residue_of, residue_ops};
ghost use Rattle.residues.specs.ResiduesLemmas.{residue_back};

use crate::modular::{invert, reduce};
use crate::types::Residue;
use integers::fraction::Fraction;
use integers::rounding::product;
use scalar::{Field, Ring, Scalar};

const PRIME: u32 = 65521;

impl Scalar for Residue {
    type Plain = i32;

    ghost ops = { residue_ops };

    ghost plain = { λ a. a.value };

    ghost read = { residue };

    ghost back = { residue_back };

    fn zero() -> Residue {
        fit(0)
    }

    fn one() -> Residue {
        fit(1)
    }

    fn add(self, other: Residue) -> Residue {
        fit(self.value as i64 + other.value as i64)
    }

    fn sub(self, other: Residue) -> Residue {
        fit(self.value as i64 - other.value as i64)
    }

    fn mul(self, other: Residue) -> Residue {
        fit(product(self.value, other.value))
    }

    fn neg(self) -> Residue {
        fit(-(self.value as i64))
    }

    fn div(self, other: Residue) -> Residue {
        fit(product(self.value, invert(other.value as u32, PRIME) as i32))
    }

    fn eq(self, other: Residue) -> bool {
        self.value == other.value
    }

    fn to_plain(self) -> i32 {
        self.value
    }

    fn from_plain(value: i32) -> Residue {
        fit(value as i64)
    }
}

impl Ring for Residue {
    fn ring_laws() {}
}

impl Field for Residue {
    fn field_laws() {}
}

// The numerator times the inverse of the denominator.
impl From<Fraction> for Residue {
    ghost from_gives = { λ f r. r ≡ residue_of f.num f.den };

    fn from(f: Fraction) -> Residue {
        Residue::from_plain(f.num).div(Residue::from_plain(f.den as i32))
    }
}

// The residue of `z`.
fn fit(z: i64) -> Residue
    ensures { result ≡ residue z }
{
    Residue {
        value: reduce(z, PRIME),
    }
}

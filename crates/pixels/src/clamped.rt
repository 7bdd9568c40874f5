// The arithmetic of the scalars that clamp.
ghost use Rattle.std.specs.Prelude.{◌≡◌, refl, ℤ};
ghost use Rattle.integers.specs.Rounds.{clamped};
ghost use Rattle.pixels.specs.Clamps.{clamp, clamped_ops, clamped_less, clamped_absolute};

use crate::measure::Measure;
use crate::types::Clamped;
use scalar::{OrderKeeping, Ordered, Scalar};
use std::marker::PhantomData;

impl<M: Measure> Scalar for Clamped<M> {
    type Plain = Clamped<M>;

    ghost ops = { clamped_ops M.ONE M.scaled M.quotient };

    ghost plain = { λ a. a };

    ghost read = { λ a. a };

    ghost back = { λ _. refl };

    fn zero() -> Clamped<M> {
        held(0)
    }

    fn one() -> Clamped<M> {
        held(M::ONE)
    }

    fn add(self, other: Clamped<M>) -> Clamped<M> {
        held(self.value.saturating_add(other.value))
    }

    fn sub(self, other: Clamped<M>) -> Clamped<M> {
        held(self.value.saturating_sub(other.value))
    }

    fn mul(self, other: Clamped<M>) -> Clamped<M> {
        held(M::product(self.value, other.value))
    }

    fn neg(self) -> Clamped<M> {
        held(self.value.saturating_neg())
    }

    fn div(self, other: Clamped<M>) -> Clamped<M> {
        held(M::quotient(self.value, other.value))
    }

    fn eq(self, other: Clamped<M>) -> bool {
        self.value == other.value
    }

    fn to_plain(self) -> Clamped<M> {
        self
    }

    fn from_plain(value: Clamped<M>) -> Clamped<M> {
        value
    }
}

impl<M: Measure> Ordered for Clamped<M> {
    ghost less = { clamped_less };

    ghost absolute = { clamped_absolute };

    fn lt(self, other: Clamped<M>) -> bool {
        self.value < other.value
    }

    fn abs(self) -> Clamped<M> {
        held(self.value.saturating_abs())
    }
}

impl<M: Measure> OrderKeeping for Clamped<M> {
    fn order_laws() {}
}

// The scalar that holds `value`.
impl<M> From<i32> for Clamped<M> {
    ghost from_gives = { λ z r. r ≡ clamp z };

    fn from(value: i32) -> Clamped<M> {
        held(value)
    }
}

// The scalar of every integer that clamps to `value`.
pub(crate) fn held<M>(value: i32) -> Clamped<M>
    ensures { (z : ℤ) → value ≡ clamped z → result ≡ clamp z }
{
    Clamped {
        value,
        measure: PhantomData,
    }
}

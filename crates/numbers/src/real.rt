// The arithmetic of Real: the language's own, each operation rounded once.
ghost use Rattle.std.specs.Prelude.{refl};
ghost use Rattle.numbers.specs.Reals.{real_ops, real_less, real_absolute};

use crate::types::Real;
use scalar::{Ordered, Scalar};

impl Scalar for Real {
    type Plain = Real;

    ghost ops = { real_ops };

    ghost plain = { λ a. a };

    ghost read = { λ a. a };

    ghost back = { λ _. refl };

    fn zero() -> Real {
        Real { value: 0.0 }
    }

    fn one() -> Real {
        Real { value: 1.0 }
    }

    fn add(self, other: Real) -> Real {
        Real {
            value: self.value + other.value,
        }
    }

    fn sub(self, other: Real) -> Real {
        Real {
            value: self.value - other.value,
        }
    }

    fn mul(self, other: Real) -> Real {
        Real {
            value: self.value * other.value,
        }
    }

    fn neg(self) -> Real {
        Real { value: -self.value }
    }

    fn div(self, other: Real) -> Real {
        Real {
            value: self.value / other.value,
        }
    }

    fn eq(self, other: Real) -> bool {
        self.value == other.value
    }

    fn to_plain(self) -> Real {
        self
    }

    fn from_plain(value: Real) -> Real {
        value
    }
}

impl Ordered for Real {
    ghost less = { real_less };

    ghost absolute = { real_absolute };

    fn lt(self, other: Real) -> bool {
        self.value < other.value
    }

    fn abs(self) -> Real {
        Real {
            value: self.value.abs(),
        }
    }
}

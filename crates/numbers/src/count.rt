// The arithmetic of Count, which wraps.
ghost use Rattle.std.specs.Prelude.{◌≡◌, refl, ℤ};
ghost use Rattle.std.specs.Int.{int_wrap, w32};
ghost use Rattle.numbers.specs.Counts.{count, count_ops};

use crate::types::Count;
use scalar::{Ring, Scalar};

#[tactic(auto, using(std::proofs::lemmas::Int::wraps))]
impl Scalar for Count {
    type Plain = Count;

    ghost ops = { count_ops };

    ghost plain = { λ a. a };

    ghost read = { λ a. a };

    ghost back = { λ _. refl };

    fn zero() -> Count {
        held(0)
    }

    fn one() -> Count {
        held(1)
    }

    fn add(self, other: Count) -> Count {
        held(self.value.wrapping_add(other.value))
    }

    fn sub(self, other: Count) -> Count {
        held(self.value.wrapping_sub(other.value))
    }

    fn mul(self, other: Count) -> Count {
        held(self.value.wrapping_mul(other.value))
    }

    fn neg(self) -> Count {
        held(self.value.wrapping_neg())
    }

    fn div(self, other: Count) -> Count {
        if other.value == 0 {
            return held(0);
        }
        held(self.value.wrapping_div(other.value))
    }

    fn eq(self, other: Count) -> bool {
        self.value == other.value
    }

    fn to_plain(self) -> Count {
        self
    }

    fn from_plain(value: Count) -> Count {
        value
    }
}

impl Ring for Count {
    fn ring_laws() {}
}

// The count of every integer that wraps to `value`.
fn held(value: i32) -> Count
    ensures { (z : ℤ) → value ≡ int_wrap w32 z → result ≡ count z }
{
    Count { value }
}

// The five scalars: how each is read and written, and which have an order.
use crate::question::Question;
use crate::refusal::Refusal;
use numbers::types::{Count, Real};
use pixels::measure::Measure;
use pixels::types::{Clamped, Whole};
use residues::types::Residue;
use scalar::{Ordered, Scalar};
use std::alloc::AllocError;
use std::fmt::Write;
use std::num::{f64_from_bits_with_nan, f64_to_bits_with_nan};

// A scalar as a word: no FromStr and no Display, since the scalars are other crates' types.
pub trait Number: Scalar {
    // None where the word is none of its numbers.
    fn read(word: &str) -> Option<Self>;

    fn write(self, line: &mut String) -> Result<(), AllocError>;
}

// A Real is written as the bits of its float.
impl Number for Real {
    fn read(word: &str) -> Option<Real> {
        if word.len() > 16 || word.starts_with('+') {
            return None;
        }
        let bits = u64::from_str_radix(word, 16).ok()?;
        Some(Real {
            value: f64_from_bits_with_nan(bits),
        })
    }

    fn write(self, line: &mut String) -> Result<(), AllocError> {
        let bits = f64_to_bits_with_nan(self.value);
        write!(line, "{bits:016x}")
    }
}

// A scalar that is written as a decimal i32.
pub trait Integer: Scalar {
    fn of(value: i32) -> Self;

    fn value(self) -> i32;
}

impl<I: Integer> Number for I {
    fn read(word: &str) -> Option<I> {
        Some(I::of(word.parse().ok()?))
    }

    fn write(self, line: &mut String) -> Result<(), AllocError> {
        let value = self.value();
        write!(line, "{value}")
    }
}

impl Integer for Count {
    fn of(value: i32) -> Count {
        Count { value }
    }

    fn value(self) -> i32 {
        self.value
    }
}

impl Integer for Residue {
    fn of(value: i32) -> Residue {
        Residue::from_plain(value)
    }

    fn value(self) -> i32 {
        self.to_plain()
    }
}

impl<M: Measure> Integer for Clamped<M> {
    fn of(value: i32) -> Clamped<M> {
        Clamped::from(value)
    }

    fn value(self) -> i32 {
        self.value
    }
}

// A scalar that may have an order.
pub trait Orderable: Number {
    // The scalar itself where it has an order, and else one that is never reached.
    type Ordered: OrderedNumber;

    // The question, to be answered by a function that needs an order.
    fn ordered<'q, 'a>(
        _q: &'q mut Question<'a, Self>,
    ) -> Result<&'q mut Question<'a, Self::Ordered>, Refusal> {
        Err(Refusal::Unordered)
    }
}

impl Orderable for Count {
    type Ordered = Whole;
}

impl Orderable for Residue {
    type Ordered = Whole;
}

// A scalar that has an order.
pub trait OrderedNumber: Number + Ordered {}

impl OrderedNumber for Real {}

impl<M: Measure> OrderedNumber for Clamped<M> {}

impl<T: OrderedNumber> Orderable for T {
    type Ordered = T;

    fn ordered<'q, 'a>(q: &'q mut Question<'a, T>) -> Result<&'q mut Question<'a, T>, Refusal> {
        Ok(q)
    }
}

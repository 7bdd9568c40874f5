// A fraction as a file holds it.

// A numerator over a denominator. Read as a scalar it is zero where the denominator is zero.
#[derive(Clone, Copy)]
pub struct Fraction {
    pub num: i32,
    pub den: u16,
}

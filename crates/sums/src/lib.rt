// Sums of products, cut small, so that a long expression of a matrix is a few calls. Each keeps the order of operations of the expression that it is a part of.
#![tactic(auto)]

ghost use Rattle.std.specs.Prelude.{◌≡◌, List, ◌∷◌, []};
ghost use Rattle.sums.specs.Sums.{dot as dot_of, affine as affine_of, cross as cross_of, even as even_of, odd as odd_of, product4, added4, taken4, eq4 as eq4_of};

use scalar::Scalar;

pub type Row2<T> = (T, T);

pub type Row3<T> = (T, T, T);

pub type Row4<T> = (T, T, T, T);

// A row of a matrix, which can be multiplied by a column of the same length.
// Not `[T; N]`, which was tried: a generic function that makes an array of T owes that T's size is below 2^63, and no scalar promises that.
pub trait Row<T: Scalar>: Copy {
    ghost entries: { Self → List T };

    // a1 b1 + a2 b2 + .., from the left, where a is this row
    fn dot(self, column: Self) -> T
        ensures { result ≡ dot_of T.ops (entries self) (entries column) };

    // a1 b1 + a2 b2 + .. + c
    fn affine(self, column: Self, c: T) -> T
        ensures { result ≡ affine_of T.ops (entries self) (entries column) c }
    {
        self.dot(column).add(c)
    }
}

impl<T: Scalar> Row<T> for Row2<T> {
    ghost entries = { λ a. a.0 ∷ a.1 ∷ [] };

    fn dot(self, column: Row2<T>) -> T {
        let (a1, a2) = self;
        let (b1, b2) = column;
        a1.mul(b1).add(a2.mul(b2))
    }
}

impl<T: Scalar> Row<T> for Row3<T> {
    ghost entries = { λ a. a.0 ∷ a.1 ∷ a.2 ∷ [] };

    fn dot(self, column: Row3<T>) -> T {
        let (a1, a2, a3) = self;
        let (b1, b2, b3) = column;
        a1.mul(b1).add(a2.mul(b2)).add(a3.mul(b3))
    }
}

impl<T: Scalar> Row<T> for Row4<T> {
    ghost entries = { λ a. a.0 ∷ a.1 ∷ a.2 ∷ a.3 ∷ [] };

    fn dot(self, column: Row4<T>) -> T {
        let (a1, a2, a3, a4) = self;
        let (b1, b2, b3, b4) = column;
        a1.mul(b1).add(a2.mul(b2)).add(a3.mul(b3)).add(a4.mul(b4))
    }
}

// Here and below the factors stand apart: they are of no one row.
// a b - c d
pub fn cross<T: Scalar>(a: T, b: T, c: T, d: T) -> T
    ensures { result ≡ cross_of T.ops a b c d }
{
    a.mul(b).sub(c.mul(d))
}

fn prod3<T: Scalar>(a: T, b: T, c: T) -> T
    ensures { result ≡ T.ops.mul (T.ops.mul a b) c }
{
    a.mul(b).mul(c)
}

// The determinant of the rows a, b and c, with the signs of an even place.
pub fn even<T: Scalar>(a: Row3<T>, b: Row3<T>, c: Row3<T>) -> T
    ensures { result ≡ even_of T.ops a b c }
{
    prod3(a.1, b.2, c.0)
        .sub(prod3(a.2, b.1, c.0))
        .add(prod3(a.2, b.0, c.1))
        .sub(prod3(a.0, b.2, c.1))
        .sub(prod3(a.1, b.0, c.2))
        .add(prod3(a.0, b.1, c.2))
}

// The same with the signs of an odd place. It is not `even` negated: the signs of zeros and what clamps differ.
pub fn odd<T: Scalar>(a: Row3<T>, b: Row3<T>, c: Row3<T>) -> T
    ensures { result ≡ odd_of T.ops a b c }
{
    prod3(a.2, b.1, c.0)
        .sub(prod3(a.1, b.2, c.0))
        .sub(prod3(a.2, b.0, c.1))
        .add(prod3(a.0, b.2, c.1))
        .add(prod3(a.1, b.0, c.2))
        .sub(prod3(a.0, b.1, c.2))
}

pub fn prod4<T: Scalar>(a: T, b: T, c: T, d: T) -> T
    ensures { result ≡ product4 T.ops a b c d }
{
    prod3(a, b, c).mul(d)
}

// t + a b c d
pub fn add4<T: Scalar>(t: T, a: T, b: T, c: T, d: T) -> T
    ensures { result ≡ added4 T.ops t a b c d }
{
    t.add(prod4(a, b, c, d))
}

// t - a b c d
pub fn less4<T: Scalar>(t: T, a: T, b: T, c: T, d: T) -> T
    ensures { result ≡ taken4 T.ops t a b c d }
{
    t.sub(prod4(a, b, c, d))
}

// Whether each entry of one row is equal to that of the other.
pub fn eq4<T: Scalar>(a: Row4<T>, b: Row4<T>) -> bool
    ensures { result ≡ eq4_of T.ops a b }
{
    a.0.eq(b.0) && a.1.eq(b.1) && a.2.eq(b.2) && a.3.eq(b.3)
}

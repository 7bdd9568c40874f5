// The choice between two values by less-than. Where neither is below the other the first is kept, so also beside a NaN.
ghost use Rattle.std.specs.Prelude.{◌≡◌};
ghost use Rattle.geometry.specs.Boxes.{smaller as smaller_of, larger as larger_of};

use scalar::Ordered;

pub(crate) fn smaller<T: Ordered>(a: T, b: T) -> T
    ensures { result ≡ smaller_of T.less a b }
{
    if b.lt(a) { b } else { a }
}

pub(crate) fn larger<T: Ordered>(a: T, b: T) -> T
    ensures { result ≡ larger_of T.less a b }
{
    if a.lt(b) { b } else { a }
}

// What a number has to be able to do: its operations, and the laws that some numbers promise besides.
// Every definition and law above this crate is over the one record `ops`, and never over a number's own type.
// The laws of an interface are the promise of a function of its own, which runs no code.
#![tactic(auto)]

ghost use Rattle.std.specs.Prelude.{Bool, ◌≡◌};
ghost use Rattle.scalar.specs.Laws.{RingLaws, FieldLaws, OrderLaws};
ghost use Rattle.scalar.specs.Ops.{Ops};

// A number type with one fixed meaning for each operation, none of which refuses.
pub trait Scalar: Copy {
    // How the scalar stands in a list of vectors. It is any type and has no default, so each scalar says its own way there and back.
    type Plain: Copy;

    ghost ops: { Ops Self };

    ghost plain: { Self → Self.Plain };

    ghost read: { Self.Plain → Self };

    fn zero() -> Self
        ensures { result ≡ ops.zero };

    fn one() -> Self
        ensures { result ≡ ops.one };

    fn add(self, other: Self) -> Self
        ensures { result ≡ ops.add self other };

    fn sub(self, other: Self) -> Self
        ensures { result ≡ ops.sub self other };

    fn mul(self, other: Self) -> Self
        ensures { result ≡ ops.mul self other };

    fn neg(self) -> Self
        ensures { result ≡ ops.neg self };

    fn div(self, other: Self) -> Self
        ensures { result ≡ ops.div self other };

    // Not PartialEq, whose laws a scalar need not keep. No default body sees the field that it compares.
    fn eq(self, other: Self) -> bool
        ensures { result ≡ ops.eq self other };

    // Not From, whose relation would leave generic code more than one plain value.
    fn to_plain(self) -> Self::Plain
        ensures { result ≡ plain self };

    fn from_plain(value: Self::Plain) -> Self
        ensures { result ≡ read value };

    // there and back gives the same scalar
    ghost back: { (x : Self) → read (plain x) ≡ x };
}

// A scalar that keeps the laws of a commutative ring.
pub trait Ring: Scalar {
    fn ring_laws()
        ensures { RingLaws Self.Scalar.ops };
}

// A ring in which a quotient undoes the product.
pub trait Field: Ring {
    fn field_laws()
        ensures { FieldLaws Self.Scalar.ops };
}

// A scalar with a less-than and an absolute value, and no law about either, so that PartialOrd would ask too much.
pub trait Ordered: Scalar {
    ghost less: { Self → Self → Bool };

    ghost absolute: { Self → Self };

    fn lt(self, other: Self) -> bool
        ensures { result ≡ less self other };

    fn abs(self) -> Self
        ensures { result ≡ absolute self };
}

// A scalar whose sums and products never turn its order round.
pub trait OrderKeeping: Ordered {
    fn order_laws()
        ensures { OrderLaws Self.Scalar.ops Self.Ordered.less };
}

// A space that coordinates are taken in. Its type has one value, which each space shows of itself, so each has an impl of its own.
pub trait Tag: Copy {
    ghost label: { Self };

    fn tag() -> Self
        ensures { result ≡ label };

    ghost only: { (x : Self) → x ≡ label };
}

// A ring has two values that differ, so that a scalar with a single value cannot claim to be one.
pub fn not_trivial<T: Ring>()
    ensures { ((x y : T) → x ≡ y) → ⊥ }
{
    T::ring_laws();
}

// The scalars that clamp. An i32 lies within 32 bits; the ghost field says so, since a law is of every value of its type.
ghost use Rattle.std.specs.Prelude.{◌≡◌, ◌<◌, ◌^◌, ⊤};
ghost use Rattle.std.specs.Int.Signed.{mag};

use std::alloc::AllocError;
use std::marker::PhantomData;

// An integer that is clamped at the ends of i32. `M` says what it counts.
pub struct Clamped<M> {
    pub value: i32,
    pub measure: PhantomData<M>,
    ghost fits: { mag value < 2 ^ 31 },
}

// By hand, since neither can be derived for a generic struct with a ghost field.
impl<M> Clone for Clamped<M> {
    ghost is_clone = { λ a b. a ≡ b };

    ghost is_infallible = { λ _. ⊤ };

    fn clone(&self) -> Result<Clamped<M>, AllocError> {
        Ok(*self)
    }
}

impl<M> Copy for Clamped<M> {}

// Counts 256ths.
#[derive(Clone, Copy)]
pub struct Parts256;

// Counts ones.
#[derive(Clone, Copy)]
pub struct Ones;

pub type Pixel = Clamped<Parts256>;

pub type Whole = Clamped<Ones>;

// The space that is not said.
ghost use Rattle.std.specs.Prelude.{refl};

use scalar::Tag;

#[derive(Clone, Copy)]
pub struct UnknownUnit;

impl Tag for UnknownUnit {
    ghost label = { record {} };

    ghost only = { λ _. refl };

    fn tag() -> UnknownUnit {
        UnknownUnit
    }
}

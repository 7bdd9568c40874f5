// The residue types. Each carries its range, so that no operation asks for it.
ghost use Rattle.std.specs.Prelude.{pos, true, ◌≡◌};
ghost use Rattle.std.specs.Int.Signed.{le_z};

// A residue modulo the prime 65,521.
#[derive(Clone, Copy)]
pub struct Residue {
    pub value: i32,
    ghost low: { le_z (pos 0) value ≡ true },
    ghost high: { le_z value (pos 65520) ≡ true },
}

// A place in a job file, and what every item is made of: counts and numbers.
ghost use Rattle.std.specs.Prelude.{◌≡◌, ◌+◌, ◌^◌, ◌<◌, ◌≤◌, [], ◌∷◌, length, MatchResult, FitsSigned};
ghost use Rattle.std.specs.Int.{w32};
ghost use Rattle.std.proofs.Common.{of_z};

use integers::fraction::Fraction;
use jobfile::faults::ReaderFault;

// What is still to be read of a job file, and where that begins.
#[derive(Clone, Copy)]
pub struct Cursor<'a> {
    rest: &'a [u8],
    at: usize,
    ghost inside: { at + length rest.now < 2 ^ 64 },
}

impl<'a> Cursor<'a> {
    ghost use Rattle.std.specs.List.{flat_map};
    ghost use Rattle.jobfile.specs.Items.{two, four, fraction_bytes, Sound, Numbers, BadNumbers, BadCount};
    ghost use Rattle.items.specs.Reads.{Reads};

    // The beginning of a file.
    pub fn new(file: &'a [u8]) -> Cursor<'a>
        ensures rest { result.rest.now ≡ file.now }
        ensures at { result.at ≡ 0 }
    {
        Cursor { rest: file, at: 0 }
    }

    pub fn rest(&self) -> &'a [u8]
        ensures { result.now ≡ self.now.rest.now }
    {
        self.rest
    }

    pub fn at(&self) -> usize
        ensures { result ≡ self.now.at }
    {
        self.at
    }

    // The next `K` bytes, for the item that begins at `item`: a fault names that place, and not the cursor's.
    fn bytes<const K: usize>(self, item: usize) -> Result<([u8; K], Cursor<'a>), ReaderFault>
        ensures { MatchResult result (λ p. Reads p.0 self.entry p.1 × (length p.0 ≡ K)) (λ f. (f ≡ ReaderFault.Short item) × (length self.entry.rest.now < K)) }
    {
        let Some((bytes, rest)) = self.rest.split_first_chunk::<K>() else {
            return Err(ReaderFault::Short(item));
        };
        let after = Cursor {
            rest,
            at: self.at + K,
        };
        Ok((*bytes, after))
    }

    // The next byte, for the item that begins at `item`.
    pub fn byte(self, item: usize) -> Result<(u8, Cursor<'a>), ReaderFault>
        ensures { MatchResult result (λ p. Reads (p.0 ∷ []) self.entry p.1) (λ f. (f ≡ ReaderFault.Short item) × (length self.entry.rest.now < 1)) }
    {
        let ([byte], after) = self.bytes::<1>(item)?;
        Ok((byte, after))
    }

    // The next two bytes as a number, for the item that begins at `item`.
    fn unsigned(self, item: usize) -> Result<(u16, Cursor<'a>), ReaderFault>
        ensures { MatchResult result (λ p. Reads (two p.0) self.entry p.1 × (p.0 < 65536)) (λ f. (f ≡ ReaderFault.Short item) × (length self.entry.rest.now < 2)) }
    {
        let (bytes, after) = self.bytes(item)?;
        Ok((u16::from_le_bytes(bytes), after))
    }

    // The next four bytes as a signed number, for the item that begins at `item`.
    fn signed(self, item: usize) -> Result<(i32, Cursor<'a>), ReaderFault>
        ensures { MatchResult result (λ p. Reads (four (of_z w32 p.0)) self.entry p.1 × FitsSigned w32 p.0) (λ f. (f ≡ ReaderFault.Short item) × (length self.entry.rest.now < 4)) }
    {
        let (bytes, after) = self.bytes(item)?;
        Ok((i32::from_le_bytes(bytes), after))
    }

    // A count of at most `limit`, which begins at `item`.
    #[tactic(auto, using(crate::proofs::Refusals::refusals))]
    pub fn count(self, item: usize, limit: u16) -> Result<(u16, Cursor<'a>), ReaderFault>
        ensures { MatchResult result (λ p. (p.0 ≤ limit) × Reads (two p.0) self.entry p.1) (λ f. BadCount limit self.entry.rest.now item f) }
    {
        let (n, after) = self.unsigned(item)?;
        if n > limit {
            return Err(ReaderFault::TooMany(item));
        }
        Ok((n, after))
    }

    // The next number, for the item that begins at `item`.
    #[tactic(auto, using(crate::proofs::Refusals::refusals))]
    fn number(self, item: usize) -> Result<(Fraction, Cursor<'a>), ReaderFault>
        ensures { MatchResult result (λ p. Sound p.0 × Reads (fraction_bytes p.0) self.entry p.1) (λ f. BadNumbers 1 self.entry.rest.now item f) }
    {
        let (num, after) = self.signed(item)?;
        let (den, after) = after.unsigned(item)?;
        if den == 0 || den > 65520 {
            return Err(ReaderFault::Denominator(item));
        }
        Ok((Fraction { num, den }, after))
    }

    // The next `N` numbers, for the item that begins at `item`.
    #[tactic(auto, using(crate::proofs::Refusals::refusals))]
    pub fn numbers<const N: usize>(
        self,
        item: usize,
    ) -> Result<([Fraction; N], Cursor<'a>), ReaderFault>
        ensures { MatchResult result (λ p. Numbers N p.0 × Reads (flat_map fraction_bytes p.0) self.entry p.1) (λ f. BadNumbers N self.entry.rest.now item f) }
    {
        // Bytes that are missing at the end come before a denominator at the front.
        if self.rest.len() / 6 < N {
            return Err(ReaderFault::Short(item));
        }
        let mut numbers = [Fraction { num: 0, den: 1 }; N];
        let mut next = self;
        for number in &mut numbers {
            (*number, next) = next.number(item)?;
        }
        Ok((numbers, next))
    }
}

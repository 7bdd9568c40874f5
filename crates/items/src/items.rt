// The items of a section, each with its reader: steps, points and frames.
ghost use Rattle.std.specs.Prelude.{◌≡◌, ℕ, [], ◌∷◌, MatchResult};
ghost use Rattle.std.specs.List.{flat_map};
ghost use Rattle.jobfile.specs.Items.{Kind, steps, points, frames, form_code, form_numbers, fraction_bytes, GoodForm, BadNumbers, BadStep, Upright};
ghost use Rattle.jobfile.specs.declared.faults.FrameFault.TheVariants.{Backwards};
ghost use Rattle.items.specs.Codes.{form_byte, numbers_of, step_byte};
ghost use Rattle.items.specs.Reads.{Reads};

use crate::codes::{FormCode, StepCode};
use crate::cursor::Cursor;
use jobfile::faults::{Fault, FrameFault, ReaderFault};
use jobfile::parts::{Form, Frame, MOST_FRAMES, MOST_POINTS, MOST_STEPS, Point, Step};
use pixels::types::Pixel;
use scalar::Ordered;

// What stands in a section, one after another.
pub trait Item: Sized {
    ghost kind: { Kind Self };

    // How many of them a section may hold.
    fn limit() -> u16
        ensures { result ≡ kind.limit };

    // The item that begins at `from`, the `index`-th of its section, and the place after it.
    fn read(from: Cursor<'_>, index: usize) -> Result<(Self, Cursor<'_>), Fault>
        ensures { MatchResult result (λ p. kind.Good p.0 × Reads (kind.bytes p.0) from.entry p.1) (λ f. kind.Bad from.entry.rest.now from.entry.at index f) };
}

// An item that can be read as if its bytes stood at any place. Apart from `Item`, since what an item's faults say may hold at the cursor's own place alone.
pub trait PlacedItem: Item {
    // The item at the cursor, the `index`-th of its section, and the cursor behind it. A fault names `item` as the place where it begins.
    fn read_at(from: Cursor<'_>, item: usize, index: usize) -> Result<(Self, Cursor<'_>), Fault>
        ensures { MatchResult result (λ p. Self.kind.Good p.0 × Reads (Self.kind.bytes p.0) from.entry p.1) (λ f. Self.kind.Bad from.entry.rest.now item index f) };
}

// The code of the step that begins at `item`.
#[tactic(auto, using(crate::proofs::Refusals::refusals))]
fn code(from: Cursor<'_>, item: usize) -> Result<(StepCode, Cursor<'_>), ReaderFault>
    ensures { MatchResult result (λ p. Reads (step_byte p.0 ∷ []) from.entry p.1) (λ f. BadStep from.entry.rest.now item f) }
{
    let (byte, after) = from.byte(item)?;
    let Ok(code) = StepCode::try_from(byte) else {
        return Err(ReaderFault::UnknownCode(item));
    };
    Ok((code, after))
}

// The form of that kind whose numbers begin at `from`, for the step that begins at `item`.
fn form(code: FormCode, from: Cursor<'_>, item: usize) -> Result<(Form, Cursor<'_>), ReaderFault>
    ensures { MatchResult result (λ p. (form_code p.0 ≡ form_byte code) × GoodForm p.0 × Reads (flat_map fraction_bytes (form_numbers p.0)) from.entry p.1) (λ f. BadNumbers (numbers_of code) from.entry.rest.now item f) }
{
    match code {
        FormCode::ScaleOffset => {
            let (numbers, after) = from.numbers(item)?;
            Ok((Form::ScaleOffset(numbers), after))
        }
        FormCode::Flat => {
            let (numbers, after) = from.numbers(item)?;
            Ok((Form::Flat(numbers), after))
        }
        FormCode::Solid => {
            let (numbers, after) = from.numbers(item)?;
            Ok((Form::Solid(numbers), after))
        }
    }
}

impl Item for Step {
    ghost kind = { steps };

    fn limit() -> u16 {
        MOST_STEPS
    }

    fn read(from: Cursor<'_>, index: usize) -> Result<(Step, Cursor<'_>), Fault> {
        Step::read_at(from, from.at(), index)
    }
}

impl PlacedItem for Step {
    #[tactic(auto, using(crate::proofs::Refusals::refusals))]
    fn read_at(from: Cursor<'_>, item: usize, _index: usize) -> Result<(Step, Cursor<'_>), Fault> {
        let (code, after) = code(from, item)?;
        match code {
            StepCode::Then(kind) => {
                let (form, after) = form(kind, after, item)?;
                Ok((Step::Then(form), after))
            }
            StepCode::Before(kind) => {
                let (form, after) = form(kind, after, item)?;
                Ok((Step::Before(form), after))
            }
            StepCode::Undo => Ok((Step::Undo, after)),
        }
    }
}

impl Item for Point {
    ghost kind = { points };

    fn limit() -> u16 {
        MOST_POINTS
    }

    fn read(from: Cursor<'_>, index: usize) -> Result<(Point, Cursor<'_>), Fault> {
        Point::read_at(from, from.at(), index)
    }
}

impl PlacedItem for Point {
    fn read_at(from: Cursor<'_>, item: usize, _index: usize) -> Result<(Point, Cursor<'_>), Fault> {
        let ([x, y, z], after) = from.numbers::<3>(item)?;
        Ok((Point { x, y, z }, after))
    }
}

// Whether no minimum of the `index`-th frame is above its maximum, as pixels.
fn upright(w: &Frame, index: usize) -> Result<(), FrameFault>
    ensures { MatchResult result (λ _. Upright w.now) (λ f. (f ≡ Backwards index) × (Upright w.now → ⊥)) }
{
    if Pixel::from(w.max_x).lt(Pixel::from(w.min_x))
        || Pixel::from(w.max_y).lt(Pixel::from(w.min_y))
    {
        return Err(FrameFault::Backwards(index));
    }
    Ok(())
}

impl Item for Frame {
    ghost kind = { frames };

    fn limit() -> u16 {
        MOST_FRAMES
    }

    fn read(from: Cursor<'_>, index: usize) -> Result<(Frame, Cursor<'_>), Fault> {
        Frame::read_at(from, from.at(), index)
    }
}

impl PlacedItem for Frame {
    fn read_at(from: Cursor<'_>, item: usize, index: usize) -> Result<(Frame, Cursor<'_>), Fault> {
        let ([min_x, min_y, max_x, max_y], after) = from.numbers::<4>(item)?;
        let frame = Frame {
            min_x,
            min_y,
            max_x,
            max_y,
        };
        upright(&frame, index)?;
        Ok((frame, after))
    }
}

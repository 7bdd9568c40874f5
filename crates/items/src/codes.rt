// The codes that steps begin with.
ghost use Rattle.items.specs.Codes.{Decodes};

// The kind of a form.
#[derive(Clone, Copy)]
pub(crate) enum FormCode {
    ScaleOffset,
    Flat,
    Solid,
}

// What a step does, and with which kind of form.
#[derive(Clone, Copy)]
pub(crate) enum StepCode {
    Then(FormCode),
    Before(FormCode),
    Undo,
}

// A byte that is no code.
#[derive(Clone, Copy)]
pub(crate) struct UnknownCode;

impl TryFrom<u8> for StepCode {
    type Error = UnknownCode;

    ghost try_from_gives = { Decodes };

    fn try_from(byte: u8) -> Result<StepCode, UnknownCode> {
        match byte {
            1 => Ok(StepCode::Then(FormCode::ScaleOffset)),
            2 => Ok(StepCode::Then(FormCode::Flat)),
            3 => Ok(StepCode::Then(FormCode::Solid)),
            17 => Ok(StepCode::Before(FormCode::ScaleOffset)),
            18 => Ok(StepCode::Before(FormCode::Flat)),
            19 => Ok(StepCode::Before(FormCode::Solid)),
            32 => Ok(StepCode::Undo),
            _ => Err(UnknownCode),
        }
    }
}

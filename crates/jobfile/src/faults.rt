// What can be wrong with a job file, layer by layer.
ghost use Rattle.std.specs.Prelude.{◌≡◌};
ghost use Rattle.jobfile.specs.declared.faults.Fault.TheVariants.{Reader as FromReader, Frame as FromFrame};

// What the reader refuses, each with the place of the item's first byte, or of the first byte left over.
#[derive(Clone, Copy)]
pub enum ReaderFault {
    Short(usize),
    TooMany(usize),
    UnknownCode(usize),
    Denominator(usize),
    LeftOver(usize),
}

// What a frame is refused for, with the frame's index.
#[derive(Clone, Copy)]
pub enum FrameFault {
    Backwards(usize),
}

// What a job is refused for: the fault of the layer below, whole.
#[derive(Clone, Copy)]
pub enum Fault {
    Reader(ReaderFault),
    Frame(FrameFault),
}

// By hand, since a derived From promises nothing of its result.
impl From<ReaderFault> for Fault {
    ghost from_gives = { λ e r. r ≡ FromReader e };

    fn from(e: ReaderFault) -> Fault {
        Fault::Reader(e)
    }
}

impl From<FrameFault> for Fault {
    ghost from_gives = { λ e r. r ≡ FromFrame e };

    fn from(e: FrameFault) -> Fault {
        Fault::Frame(e)
    }
}

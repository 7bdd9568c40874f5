// A fault as it is printed: its layer, its number and its place.
ghost use Rattle.std.specs.Prelude.{◌≡◌, Some};
ghost use Rattle.jobfile.specs.Notices.{printed, layer_text, notice_text};

use crate::faults::{Fault, FrameFault, ReaderFault};
use std::fmt;

#[derive(Clone, Copy)]
pub enum Layer {
    Reader,
    Frame,
}

// The number is what the users know the refusal by.
#[derive(Clone, Copy)]
pub struct Notice {
    pub layer: Layer,
    pub number: u8,
    pub place: usize,
}

// By hand, so that its clause states the notice.
impl From<Fault> for Notice {
    ghost from_gives = { λ fault notice. notice ≡ printed fault };

    fn from(fault: Fault) -> Notice {
        let (layer, number, place) = match fault {
            Fault::Reader(ReaderFault::Short(place)) => (Layer::Reader, 1, place),
            Fault::Reader(ReaderFault::TooMany(place)) => (Layer::Reader, 2, place),
            Fault::Reader(ReaderFault::UnknownCode(place)) => (Layer::Reader, 3, place),
            Fault::Reader(ReaderFault::Denominator(place)) => (Layer::Reader, 4, place),
            Fault::Reader(ReaderFault::LeftOver(place)) => (Layer::Reader, 5, place),
            Fault::Frame(FrameFault::Backwards(index)) => (Layer::Frame, 6, index),
        };
        Notice {
            layer,
            number,
            place,
        }
    }
}

// By hand, as the next, so that its clause states the bytes.
impl fmt::Display for Layer {
    ghost output = { λ layer. Some (layer_text layer) };

    fn fmt<W: fmt::Write>(&self, f: &mut fmt::Formatter<W>) -> fmt::Result {
        f.write_str(match self {
            Layer::Reader => "reader",
            Layer::Frame => "frame",
        })
    }
}

impl fmt::Display for Notice {
    ghost output = { λ notice. Some (notice_text notice) };

    fn fmt<W: fmt::Write>(&self, f: &mut fmt::Formatter<W>) -> fmt::Result {
        write!(f, "REFUSED {} {} {}", self.layer, self.number, self.place)
    }
}

// What recordings and tapes refuse, and the number of each refusal.
ghost use Rattle.std.specs.Prelude.{◌≡◌};
ghost use Rattle.recording.specs.Faults.{records_layer, records_number, tape_layer, tape_number};
ghost use Rattle.recording.specs.declared.faults.TapeFault.TheVariants.{Scale as of_scale};

use scale::{Layer, ScaleFault};

#[derive(Clone, Copy, PartialEq, Eq, Debug)]
pub enum TapeFault {
    NoChannel,
    NoPoint,
    // The channel's marks are worked out from others, so they take no change.
    NotGiven,
    Full,
    TickNotLater,
    Scale(ScaleFault),
}

#[derive(Clone, Copy, PartialEq, Eq, Debug)]
pub enum RecordsFault {
    // The bytes are no whole number of records.
    Ragged,
    // The first record that is refused, counted from 0.
    Record { record: usize, fault: TapeFault },
}

// By hand, to say what it makes of a fault; what the toolchain derives does not.
impl From<ScaleFault> for TapeFault {
    ghost from_gives = { λ x r. r ≡ of_scale x };

    fn from(lower: ScaleFault) -> TapeFault {
        TapeFault::Scale(lower)
    }
}

impl TapeFault {
    // The number that stands for the fault outside the program.
    pub fn number(self) -> u32
        ensures { result ≡ tape_number self }
    {
        match self {
            TapeFault::NoChannel => 6,
            TapeFault::NoPoint => 8,
            TapeFault::NotGiven => 9,
            TapeFault::Full => 10,
            TapeFault::TickNotLater => 11,
            TapeFault::Scale(fault) => fault.number(),
        }
    }

    // The layer that raised the fault.
    pub fn layer(self) -> Layer
        ensures { result ≡ tape_layer self }
    {
        match self {
            TapeFault::Scale(_) => Layer::Scale,
            _ => Layer::Tape,
        }
    }
}

impl RecordsFault {
    pub fn number(self) -> u32
        ensures { result ≡ records_number self }
    {
        match self {
            RecordsFault::Ragged => 15,
            RecordsFault::Record { fault, .. } => fault.number(),
        }
    }

    // Ragged bytes are refused by the bench, before any record is looked at.
    pub fn layer(self) -> Layer
        ensures { result ≡ records_layer self }
    {
        match self {
            RecordsFault::Ragged => Layer::Bench,
            RecordsFault::Record { fault, .. } => fault.layer(),
        }
    }
}

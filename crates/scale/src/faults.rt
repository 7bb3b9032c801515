// What a scale refuses, and the layers that refusals come from.
ghost use Rattle.std.specs.Prelude.{◌≡◌};
ghost use Rattle.scale.specs.Faults.{scale_number};

// The layer that raised a fault.
#[derive(Clone, Copy, PartialEq, Eq, Debug)]
pub enum Layer {
    Text,
    Scale,
    Tape,
    Bench,
}

#[derive(Clone, Copy, PartialEq, Eq, Debug)]
pub enum ScaleFault {
    // No mark has the text of the run that starts at this place.
    Unread { place: usize },
    // No mark has this code.
    NoMark,
}

impl ScaleFault {
    pub fn number(self) -> u32
        ensures { result ≡ scale_number self }
    {
        match self {
            ScaleFault::Unread { .. } => 5,
            ScaleFault::NoMark => 7,
        }
    }
}

// What is refused of a rule's text, and at which byte.
ghost use Rattle.std.specs.Prelude.{◌≡◌};
ghost use Rattle.text.specs.declared.faults.TextFault.TheVariants.{Scale as of_scale};
ghost use Rattle.text.specs.Faults.{text_layer, text_number, text_place};

use scale::{Layer, ScaleFault};

#[derive(Clone, Copy, PartialEq, Eq, Debug)]
pub enum TextFault {
    // The text is empty or too long.
    Length,
    // The byte here, or the text's end, fits no rule.
    Form { place: usize },
    // The bracket here would be one too many open at once.
    Brackets { place: usize },
    // The part met here would be one too many.
    Parts { place: usize },
    // The scale refused a run.
    Scale(ScaleFault),
}

// By hand, to say what it makes of a fault; what the toolchain derives does not.
impl From<ScaleFault> for TextFault {
    ghost from_gives = { λ fault out. out ≡ of_scale fault };

    fn from(refused: ScaleFault) -> TextFault {
        TextFault::Scale(refused)
    }
}

impl TextFault {
    // The number that stands for the fault outside the program.
    pub fn number(self) -> u32
        ensures { result ≡ text_number self }
    {
        match self {
            TextFault::Length => 1,
            TextFault::Form { .. } => 2,
            TextFault::Brackets { .. } => 3,
            TextFault::Parts { .. } => 4,
            TextFault::Scale(fault) => fault.number(),
        }
    }

    // The byte that is blamed, counted from 0.
    pub fn place(self) -> Option<usize>
        ensures { result ≡ text_place self }
    {
        match self {
            TextFault::Form { place }
            | TextFault::Brackets { place }
            | TextFault::Parts { place }
            | TextFault::Scale(ScaleFault::Unread { place }) => Some(place),
            TextFault::Length | TextFault::Scale(ScaleFault::NoMark) => None,
        }
    }

    // The layer that raised the fault.
    pub fn layer(self) -> Layer
        ensures { result ≡ text_layer self }
    {
        match self {
            TextFault::Scale(_) => Layer::Scale,
            _ => Layer::Text,
        }
    }
}

// Reads the text of a rule without knowing the scale: constants stay as places in the text.
ghost use Rattle.std.specs.Prelude.{◌≤◌, length};

mod bytes;
mod comparisons;
mod operators;
mod wholes;

pub use wholes::read_text;

// The bytes of a text from `start` to before `end`. Places and no slice, since a rule keeps its draft when the text is given back.
#[derive(Clone, Copy)]
pub struct Run {
    pub start: usize,
    pub end: usize,
}

// How far a text has been read, and how many parts were met on the way.
#[derive(Drop)]
struct Cursor<'a> {
    text: &'a [u8],
    at: usize,
    met: usize,
    ghost within: { at ≤ length text.now },
    ghost counted: { met ≤ 24 },
}

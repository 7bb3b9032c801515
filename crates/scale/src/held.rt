// How a word is held.
ghost use Rattle.std.specs.Prelude.{◌≡◌, ◌≤◌, length};

// No memory is taken for a word, and it is copied like the mark that it is the text of. The toolchain's vector of bytes is not
// copied, and its string takes no bytes that are not UTF-8.
#[derive(Clone, Copy)]
pub struct Word {
    pub(crate) bytes: [u8; 16],
    pub(crate) len: usize,
    ghost within: { len ≤ 16 },
    ghost whole: { length bytes ≡ 16 },
}

// A word is a text of at most 16 bytes, held without memory of its own.
ghost use Rattle.std.specs.Prelude.{◌≡◌, [], take, decimal};
ghost use Rattle.scale.specs.Words.{bytes_of};

use crate::held::Word;
use itoa::Buffer;

impl Word {
    pub fn empty() -> Word
        ensures { bytes_of result ≡ [] }
    {
        Word {
            bytes: [0; 16],
            len: 0,
        }
    }

    // The first sixteen bytes of a text.
    pub fn new(text: &[u8]) -> Word
        ensures { bytes_of result ≡ take 16 text.now }
    {
        let len = text.len().min(16);
        let mut bytes = [0; 16];
        bytes[..len].copy_from_slice(&text[..len]);
        Word { bytes, len }
    }

    pub fn as_bytes(&self) -> &[u8]
        ensures { result.now ≡ bytes_of self.now }
    {
        &self.bytes[..self.len]
    }

    // The decimal text of a number.
    pub fn decimal(number: u32) -> Word
        ensures { bytes_of result ≡ decimal number }
    {
        Word::new(Buffer::new().format(number).as_bytes())
    }
}

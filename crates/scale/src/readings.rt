// The scale of readings.
ghost use Rattle.std.specs.Prelude.{◌≡◌, pos, Some};
ghost use Rattle.scale.specs.Numbered.{Leans};
ghost use Rattle.scale.specs.declared.values.Reading.{Reading};
ghost use Rattle.scale.specs.Readings.{held, value_of, reading_rank, reading_code, reading_named, reading_text, reading_picked, readings};
ghost use Rattle.scale.specs.ReadingLaws.{reading_ranks_apart, reading_codes_name, reading_texts_apart, reading_texts_run};
ghost use Rattle.std.proofs.Common.{rules, arith};

use crate::cuts::Cut;
use crate::held::Word;
use crate::numbered::{Numbered, Row, pick_number};
use crate::scales::Scale;
use crate::values::Reading;
use itoa::Buffer;

impl Reading {
    // `new` and `to_i32` have names, and no `From`: a name at a call tells what `into` leaves to be guessed.
    pub fn new(value: i32) -> Reading
        ensures value { value_of result ≡ value }
        ensures held { result ≡ held value }
    {
        Reading { value }
    }

    pub fn to_i32(self) -> i32
        ensures { result ≡ value_of self }
    {
        self.value
    }
}

// The reading that has this text, if one has; of other texts it may be any reading.
fn parsed(run: &[u8]) -> Option<Reading>
    ensures { (m : Reading) → reading_text m ≡ run.now → result ≡ Some m }
{
    let Ok(digits) = std::str::from_utf8(run) else {
        return None;
    };
    let Ok(number) = digits.parse::<i32>() else {
        return None;
    };
    Some(Reading::new(number))
}

impl Numbered for Reading {
    const ROW: Row = Row {
        least: i32::MIN,
        past: 2_147_483_648,
        rest: 0,
    };

    ghost ROW = { readings };

    ghost number = { value_of };

    fn to_number(self) -> i32 {
        self.to_i32()
    }
}

impl Scale for Reading {
    ghost rank = { reading_rank };

    ghost code = { reading_code };

    ghost named = { reading_named };

    ghost text = { reading_text };

    ghost resting = { held (pos 0) };

    ghost picked = { reading_picked };

    ghost ranks_apart = { reading_ranks_apart };

    ghost ranks_fit = { first_of (Prim.search rules, Prim.grind (arith, Self.row.coded.inj)) };

    ghost codes_fit = { first_of (Prim.search rules, Prim.grind (arith, Self.row.coded.inj)) };

    ghost codes_name = { reading_codes_name };

    ghost texts_apart = { reading_texts_apart };

    ghost texts_run = { reading_texts_run };

    ghost picks = { first_of (Prim.search rules, Prim.grind (arith, Self.row.coded.inj)) };

    fn is_before(self, other: Reading) -> bool {
        self < other
    }

    fn to_code(self) -> u32 {
        self.to_i32().cast_unsigned()
    }

    fn of_code(number: u32) -> Option<Reading> {
        Some(Reading::new(number.cast_signed()))
    }

    fn rest() -> Reading {
        Reading::new(0)
    }

    fn to_text(self) -> Word {
        Word::new(Buffer::new().format(self.to_i32()).as_bytes())
    }

    // Only the text that is written of a number is read, so what is parsed is written again and compared.
    fn of_text(run: &[u8]) -> Option<Reading> {
        parsed(run).filter(|mark| mark.to_text().as_bytes() == run)
    }

    fn pick(lower: Cut<Reading>, upper: Cut<Reading>) -> Option<Reading>
        ensures value { result ≡ reading_picked lower upper }
        ensures leans { Leans reading_rank (held (pos 0)) lower upper result }
    {
        pick_number(lower, upper).map(|number| Reading::new(number as i32))
    }
}

// A slow reader that goes by what docs/RULES.md says of each byte, and both readers on many texts.
ghost use Rattle.std.specs.Prelude.{◌≤◌};

use arrayvec::ArrayVec;
use rule::Rule;
use scale::{Reading, Scale, ScaleFault};
use std::test::Fail;
use text::TextFault;

// What the bytes so far end with.
#[derive(Clone, Copy, PartialEq, Eq)]
enum Seen {
    Nothing,
    Letter,
    LetterAndOne,
    Channel,
    Sign,
    LongSign,
    Run,
    Operator,
    HalfArrow,
    LeftOperand,
    Formula,
}

#[derive(Drop)]
struct Scan {
    seen: Seen,
    // Of each bracket that is open, whether it is around a left operand.
    lefts: ArrayVec<bool, 12>,
    met: usize,
    ghost counted: { met ≤ 24 },
}

// What the bytes end with after a byte that is no bracket, if it can follow.
fn follows(seen: Seen, byte: u8) -> Option<Seen> {
    match (seen, byte) {
        (Seen::Nothing, b'c') => Some(Seen::Letter),
        (Seen::Nothing, b'X' | b'F' | b'G' | b'!') => Some(Seen::Operator),
        (Seen::Letter, b'1') => Some(Seen::LetterAndOne),
        (Seen::Letter, b'0'..=b'9') => Some(Seen::Channel),
        (Seen::LetterAndOne, b'0'..=b'5') => Some(Seen::Channel),
        (Seen::LetterAndOne | Seen::Channel, b'<' | b'>') => Some(Seen::Sign),
        (Seen::Sign, b'=') => Some(Seen::LongSign),
        (Seen::Sign | Seen::LongSign | Seen::Run, byte) if in_run(byte) => Some(Seen::Run),
        (Seen::LeftOperand, b'&' | b'|' | b'U' | b'W') => Some(Seen::Operator),
        (Seen::LeftOperand, b'=') => Some(Seen::HalfArrow),
        (Seen::HalfArrow, b'>') => Some(Seen::Operator),
        _ => None,
    }
}

fn in_run(byte: u8) -> bool {
    matches!(byte, b'a'..=b'z' | b'0'..=b'9' | b'-')
}

// Whether a part is met at a byte, from the byte before it.
fn meets(before: u8, byte: u8) -> bool {
    match byte {
        b'c' => before == b'(',
        b'X' | b'F' | b'G' | b'!' => true,
        b'&' | b'|' | b'U' | b'W' | b'=' => before == b')',
        _ => false,
    }
}

impl Scan {
    fn new() -> Scan {
        Scan {
            seen: Seen::Nothing,
            lefts: ArrayVec::new(),
            met: 0,
        }
    }

    fn open(&mut self, place: usize) -> Result<(), TextFault> {
        let left = match self.seen {
            Seen::Nothing => true,
            Seen::Operator => false,
            _ => return Err(TextFault::Form { place }),
        };
        self.lefts
            .try_push(left)
            .map_err(|_| TextFault::Brackets { place })?;
        self.seen = Seen::Nothing;
        Ok(())
    }

    fn close(&mut self, place: usize) -> Result<(), TextFault> {
        if !self.is_whole() {
            return Err(TextFault::Form { place });
        }
        self.seen = match self.lefts.pop() {
            Some(true) => Seen::LeftOperand,
            Some(false) => Seen::Formula,
            None => return Err(TextFault::Form { place }),
        };
        Ok(())
    }

    fn is_whole(&self) -> bool {
        self.seen == Seen::Run || self.seen == Seen::Formula
    }

    // The faults of one byte, the lowest number first.
    fn take(&mut self, before: u8, byte: u8, place: usize) -> Result<(), TextFault> {
        match byte {
            b'(' => self.open(place)?,
            b')' => self.close(place)?,
            _ => match follows(self.seen, byte) {
                Some(seen) => self.seen = seen,
                None => return Err(TextFault::Form { place }),
            },
        }
        if meets(before, byte) {
            if self.met == 24 {
                return Err(TextFault::Parts { place });
            }
            self.met += 1;
        }
        Ok(())
    }
}

// The run that the bytes begin with.
fn run_of(bytes: &[u8]) -> &[u8] {
    match bytes.iter().position(|byte| !in_run(*byte)) {
        Some(end) => &bytes[..end],
        None => bytes,
    }
}

// Whether a run is a limit, a channel or a reading.
fn is_read(run: &[u8]) -> bool {
    match run {
        b"p" | b"q" | b"r" => true,
        [b'c', b'0'..=b'9'] => true,
        [b'c', b'1', b'0'..=b'5'] => true,
        _ => Reading::of_text(run).is_some(),
    }
}

fn slow(text: &[u8]) -> Result<(), TextFault> {
    if text.is_empty() || text.len() > 512 {
        return Err(TextFault::Length);
    }
    let mut scan = Scan::new();
    let mut before = b'(';
    for (place, byte) in text.iter().copied().enumerate() {
        scan.take(before, byte, place)?;
        let signed = before == b'<' || before == b'>' || before == b'=';
        if signed && in_run(byte) && !is_read(run_of(&text[place..])) {
            return Err(TextFault::Scale(ScaleFault::Unread { place }));
        }
        before = byte;
    }
    if scan.is_whole() && scan.lefts.is_empty() {
        Ok(())
    } else {
        Err(TextFault::Form { place: text.len() })
    }
}

const LONG: [u8; 61] = *b"G(((c0<=p)&(X(c15>-12)))=>((c1>=c10)U(!((c2<q)W(F(c13>r))))))";

// Thirteen brackets are open before `c1`.
const DEEP: [u8; 49] = *b"X(X(X(X(X(X(X(X(X(X(X((c0<p)U(X(c1>7)))))))))))))";

// The `X` before the last comparison is the 25th part.
const LARGE: [u8; 109] =
    *b"(((c0<p)&((c1<q)|(c2<r)))&((c3<p)&((c4<q)|(c5<r))))U(((c6<p)&((c7<q)|(c8<r)))&((c9<p)&((!(c1<q))|(X(c5<r)))))";

fn agree(rule: &mut Rule, text: &[u8]) -> Result<(), Fail> {
    let read = rule.read::<Reading>(text);
    let wanted = slow(text);
    if read == wanted {
        Ok(())
    } else {
        Err(Fail::new(format_args!("{read:?} is not {wanted:?}")))
    }
}

// Every beginning of a text.
fn agree_on_beginnings(rule: &mut Rule, whole: &[u8]) -> Result<(), Fail> {
    for end in 0..=whole.len() {
        agree(rule, &whole[..end])?;
    }
    Ok(())
}

// A text with one byte changed, at each place and to every byte.
fn agree_on_changes<const N: usize>(rule: &mut Rule, whole: [u8; N]) -> Result<(), Fail> {
    for place in 0..N {
        for other in 0..=255u8 {
            let mut text = whole;
            text[place] = other;
            agree(rule, &text)?;
        }
    }
    Ok(())
}

#[test]
fn beginnings(rt: HostRuntime) -> Result<(), Fail> {
    let mut rule = Rule::new(rt.alloc())?;
    agree_on_beginnings(&mut rule, &LONG)?;
    agree_on_beginnings(&mut rule, &DEEP)?;
    agree_on_beginnings(&mut rule, &LARGE)
}

#[test]
fn one_byte_changed(rt: HostRuntime) -> Result<(), Fail> {
    let mut rule = Rule::new(rt.alloc())?;
    agree_on_changes(&mut rule, LONG)?;
    agree_on_changes(&mut rule, DEEP)?;
    agree_on_changes(&mut rule, LARGE)
}

// A comparison: a channel, a comparator and an operand.
ghost use Rattle.std.specs.Prelude.{◌≡◌, ℕ, ◌-◌, ◌<◌, ◌≤◌, [], ◌∷◌, length, IfOk, IfErr, MatchBool, MatchResult, OnErr, slice_index};
ghost use Rattle.scale.specs.Marks.{RunByte};
ghost use Rattle.reader.specs.Cursors.{Ahead, Digit, Passes, rest};
ghost use Rattle.text.specs.Faults.{Blames};
ghost use Rattle.formula.specs.Formulas.{parts_of};
ghost use Rattle.reader.specs.Fronts.{NoFormula};
ghost use Rattle.reader.specs.Halts.{Halts};
ghost use Rattle.reader.specs.Operands.{MeantBy};
ghost use Rattle.reader.specs.Reads.{AllDrawn, Reads, Stands};
ghost use Rattle.reader.specs.Told.{Means, ToldBy};
ghost use Rattle.reader.specs.Written.{operand_text};
ghost use Rattle.reader.specs.Runs.{IsRun, bytes_in};
ghost use Rattle.reader.specs.Spellings.{decimal, comparator_text};

use crate::appending::append;
use crate::readers::{Cursor, Run};
use formula::{Comparator, Formula, LimitName, Operand, Part};
use text::TextFault;

impl Cursor<'_> {
    // The number of a channel, 0 to 15 without leading zero.
    pub fn channel_number(&mut self) -> Result<usize, TextFault>
        ensures { MatchResult result (λ n. (n < 16) × Passes self.old self.new (decimal n) 0 × (n ≡ 1 → (d : ℕ) → 48 ≤ d → d ≤ 53 → Ahead self.new d → ⊥)) (λ e. (e ≡ TextFault.Form self.old.at) × ((d : ℕ) → Digit d → Ahead self.old d → ⊥)) }
    {
        let first = match self.peek() {
            Some(digit @ b'0'..=b'9') => digit,
            _ => return Err(self.misfit()),
        };
        self.pass(first);
        if first != b'1' {
            return Ok((first - b'0') as usize);
        }
        match self.peek() {
            Some(second @ b'0'..=b'5') => {
                self.pass(second);
                Ok(10 + (second - b'0') as usize)
            }
            _ => Ok(1),
        }
    }

    // One of `<`, `>`, `<=` and `>=`, as long as it goes.
    pub fn comparator(&mut self) -> Result<Comparator, TextFault>
        ensures { MatchResult result (λ v. Passes self.old self.new (comparator_text v) 0 × (length (comparator_text v) ≡ 1 → Ahead self.new 61 → ⊥)) (λ e. (e ≡ TextFault.Form self.old.at) × (Ahead self.old 60 → ⊥) × (Ahead self.old 62 → ⊥)) }
    {
        let sign = match self.peek() {
            Some(sign @ (b'<' | b'>')) => sign,
            _ => return Err(self.misfit()),
        };
        self.pass(sign);
        let or_equal = self.takes(b'=');
        Ok(match (sign, or_equal) {
            (b'<', false) => Comparator::Less,
            (b'<', true) => Comparator::AtMost,
            (_, false) => Comparator::Greater,
            (_, true) => Comparator::AtLeast,
        })
    }

    // The longest run of small letters, digits and `-`, of which there has to be one.
    pub fn run(&mut self) -> Result<Run, TextFault>
        ensures { MatchResult result (λ run. IsRun self.old.text.now run × (run.start ≡ self.old.at) × (run.end ≡ self.new.at) × Passes self.old self.new (bytes_in self.old.text.now run) 0) (λ e. (e ≡ TextFault.Form self.old.at) × ((b : ℕ) → RunByte b → Ahead self.old b → ⊥)) }
    {
        let start = self.at;
        let length = run_length(&self.text[start..]);
        if length == 0 {
            return Err(self.misfit());
        }
        self.at += length;
        Ok(Run {
            start,
            end: self.at,
        })
    }

    // An operand, which is a run.
    pub fn operand(&mut self) -> Result<Operand<Run>, TextFault>
        ensures { MatchResult result (λ o. Stands self.old.text.now o × Passes self.old self.new (operand_text (bytes_in self.old.text.now) o) 0 × ((b : ℕ) → RunByte b → Ahead self.new b → ⊥) × Means self.old.text.now self.old.at self.new.at o) (λ e. (e ≡ TextFault.Form self.old.at) × ((b : ℕ) → RunByte b → Ahead self.old b → ⊥)) }
    {
        let run = self.run()?;
        let Run { start, end } = run;
        Ok(operand_of(&self.text[start..end], run))
    }

    // A comparison, whose first byte is under the cursor. Answers the number of its part.
    pub(crate) fn comparison(&mut self, out: &mut Formula<Run>) -> Result<usize, TextFault>
        requires ahead { Ahead self.old 99 }
        requires room { length (parts_of out.old) ≤ self.old.met }
        ensures drawn { AllDrawn self.old.text.now (parts_of out.old) → AllDrawn self.old.text.now (parts_of out.new) }
        ensures blames { IfErr result (Blames self.old.text.now) }
        ensures missing { OnErr result ((brackets : ℕ) → NoFormula (rest self.old) brackets (24 - self.old.met)) }
        ensures halts { IfErr result (λ e. (brackets : ℕ) → Halts self.old brackets e) }
        ensures told { ToldBy result self.old self.new.at (parts_of out.old) (parts_of out.new) }
        ensures read { IfOk result (Reads self.old self.new 0 (parts_of out.old) (parts_of out.new)) }
    {
        self.meet()?;
        self.pass(b'c');
        let channel = self.channel_number()?;
        let comparator = self.comparator()?;
        let operand = self.operand()?;
        Ok(append(
            out,
            Part::Comparison {
                channel,
                comparator,
                operand,
            },
        ))
    }
}

// Whether a byte can stand in a run.
fn is_run_byte(byte: u8) -> bool
    ensures { MatchBool result (RunByte byte) (RunByte byte → ⊥) }
{
    matches!(byte, b'a'..=b'z' | b'0'..=b'9' | b'-')
}

// How many bytes at a text's front can stand in a run.
fn run_length(text: &[u8]) -> usize
    ensures within { result ≤ length text.now }
    ensures each { (k : ℕ) → k < result → RunByte (slice_index text.now k) }
    ensures longest { result < length text.now → RunByte (slice_index text.now result) → ⊥ }
{
    text.iter().take_while(|byte| is_run_byte(**byte)).count()
}

// What a run stands for: a limit, a channel, or else a constant that the scale is to read.
fn operand_of(bytes: &[u8], run: Run) -> Operand<Run>
    ensures { MeantBy bytes.now run result }
{
    match bytes {
        b"p" => Operand::Limit(LimitName::P),
        b"q" => Operand::Limit(LimitName::Q),
        b"r" => Operand::Limit(LimitName::R),
        [b'c', digit @ b'0'..=b'9'] => Operand::Channel((*digit - b'0') as usize),
        [b'c', b'1', digit @ b'0'..=b'5'] => Operand::Channel(10 + (*digit - b'0') as usize),
        _ => Operand::Constant(run),
    }
}

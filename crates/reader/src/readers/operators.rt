// The operators of a rule. Bytes become operators by functions: the types are of another crate, so it is not for a `TryFrom`.
ghost use Rattle.std.specs.Prelude.{◌≡◌, ◌+◌, ◌⊎◌, [], ◌∷◌, MatchOption, MatchResult, ◌≢◌};
ghost use Rattle.formula.specs.declared.parts.BinaryOperator.{BinaryOperator};
ghost use Rattle.formula.specs.declared.parts.UnaryOperator.{UnaryOperator};
ghost use Rattle.reader.specs.Cursors.{Ahead, NoOperator, Operatorless, Passes};
ghost use Rattle.text.specs.Faults.{Blames};
ghost use Rattle.reader.specs.Spellings.{binary_text, first_of, unary_text};

use crate::readers::Cursor;
use formula::{BinaryOperator, UnaryOperator};
use text::TextFault;

// The operator over one operand that a byte stands for, if any.
pub fn unary_operator(byte: u8) -> Option<UnaryOperator>
    ensures { MatchOption result ((op : UnaryOperator) → unary_text op ≢ byte ∷ []) (λ op. unary_text op ≡ byte ∷ []) }
{
    match byte {
        b'!' => Some(UnaryOperator::Not),
        b'X' => Some(UnaryOperator::Next),
        b'F' => Some(UnaryOperator::Finally),
        b'G' => Some(UnaryOperator::Globally),
        _ => None,
    }
}

// The operator between two operands that a byte begins, if any.
fn begun_operator(byte: u8) -> Option<BinaryOperator>
    ensures { MatchOption result ((op : BinaryOperator) → first_of op ≢ byte) (λ op. first_of op ≡ byte) }
{
    match byte {
        b'U' => Some(BinaryOperator::Until),
        b'W' => Some(BinaryOperator::WeakUntil),
        b'&' => Some(BinaryOperator::And),
        b'|' => Some(BinaryOperator::Or),
        b'=' => Some(BinaryOperator::Implies),
        _ => None,
    }
}

impl Cursor<'_> {
    // The operator between two operands, which is a part met at its first byte.
    pub fn binary_operator(&mut self) -> Result<BinaryOperator, TextFault>
        ensures missing { MatchResult result (λ op. Passes self.old self.new (binary_text op) 1) (λ e. Blames self.old.text.now e × NoOperator self.old) }
        ensures read { MatchResult result (λ op. Passes self.old self.new (binary_text op) 1) (Operatorless self.old) }
    {
        let Some(byte) = self.peek() else {
            return Err(self.misfit());
        };
        let Some(operator) = begun_operator(byte) else {
            return Err(self.misfit());
        };
        self.meet()?;
        self.pass(byte);
        if let BinaryOperator::Implies = operator {
            self.expect(b'>')?;
        }
        Ok(operator)
    }
}

// Formulas and recordings made by dice, the same in every run.
use formula::{BinaryOperator, Comparator, Formula, LimitName, Operand, Part, UnaryOperator};
use scale::Reading;
use std::alloc::{AllocError, Global};

#[derive(Drop)]
pub(crate) struct Dice {
    pub(crate) state: u32,
}

impl Dice {
    // A number below the given one.
    pub(crate) fn roll(&mut self, below: u32) -> u32 {
        self.state = self
            .state
            .wrapping_mul(1_664_525)
            .wrapping_add(1_013_904_223);
        (self.state >> 16).checked_rem(below).unwrap_or(0)
    }

    // A number from 0 to 3.
    pub(crate) fn small(&mut self) -> i32 {
        i32::try_from(self.roll(4)).unwrap_or(0)
    }

    fn comparator(&mut self) -> Comparator {
        match self.roll(4) {
            0 => Comparator::Less,
            1 => Comparator::Greater,
            2 => Comparator::AtMost,
            _ => Comparator::AtLeast,
        }
    }

    fn operand(&mut self) -> Operand<Reading> {
        match self.roll(8) {
            0 | 1 | 2 => Operand::Limit(LimitName::P),
            3 | 4 => Operand::Limit(LimitName::Q),
            5 => Operand::Limit(LimitName::R),
            6 => Operand::Channel(self.roll(3) as usize),
            _ => Operand::Constant(Reading::new(self.small())),
        }
    }

    fn comparison(&mut self) -> Part<Reading> {
        let channel = self.roll(3) as usize;
        let comparator = self.comparator();
        let operand = self.operand();
        Part::Comparison {
            channel,
            comparator,
            operand,
        }
    }

    fn unary(&mut self, operand: usize) -> Part<Reading> {
        let operator = match self.roll(4) {
            0 => UnaryOperator::Not,
            1 => UnaryOperator::Next,
            2 => UnaryOperator::Finally,
            _ => UnaryOperator::Globally,
        };
        Part::Unary { operator, operand }
    }

    fn binary(&mut self, left: usize, right: usize) -> Part<Reading> {
        let operator = match self.roll(6) {
            0 | 1 => BinaryOperator::Until,
            2 => BinaryOperator::WeakUntil,
            3 => BinaryOperator::And,
            4 => BinaryOperator::Or,
            _ => BinaryOperator::Implies,
        };
        Part::Binary {
            operator,
            left,
            right,
        }
    }

    // The next part: an operator over the last one or two formulas that stand alone, or a comparison of its own.
    fn part(&mut self, alone: &mut Vec<usize>) -> Part<Reading> {
        let choice = self.roll(5);
        if choice < 3 {
            if let Some(last) = alone.pop() {
                if choice == 0 {
                    return self.unary(last);
                }
                if let Some(left) = alone.pop() {
                    return self.binary(left, last);
                }
                alone.push_reserved(last);
            }
        }
        self.comparison()
    }

    // A formula of up to sixteen parts.
    pub(crate) fn formula(&mut self, heap: Global) -> Result<Formula<Reading>, AllocError> {
        let mut formula = Formula::new(heap)?;
        let mut alone: Vec<usize> = Vec::new(heap);
        for _ in 0..8 {
            let part = self.part(&mut alone);
            if let Ok(number) = formula.push(part) {
                alone.push(number)?;
            }
        }
        for _ in 0..8 {
            if let Some(right) = alone.pop() {
                if let Some(left) = alone.pop() {
                    if let Ok(number) = formula.push(self.binary(left, right)) {
                        alone.push(number)?;
                    }
                }
            }
        }
        Ok(formula)
    }
}

// Truth worked out from its definition: at each place, of each part, with three marks in the place of the limits.
use formula::{BinaryOperator, Comparator, MAX_PARTS, Operand, Part, UnaryOperator};
use scale::Reading;
use std::array;

pub(crate) const POINTS: usize = 4;

const LAST: usize = 3;

// What three channels read at each point.
pub(crate) type Marks = [[i32; 3]; POINTS];

#[derive(Drop)]
pub(crate) struct Truths {
    pub(crate) rows: [[bool; POINTS]; MAX_PARTS],
    pub(crate) marks: Marks,
    pub(crate) limits: [i32; 3],
}

impl Truths {
    // Of a part with a lower number, at a point.
    pub(crate) fn at(&self, part: usize, point: usize) -> bool {
        part < MAX_PARTS && point < POINTS && self.rows[part][point]
    }

    fn mark(&self, point: usize, channel: usize) -> i32 {
        let channels = self.marks.get(point).copied().unwrap_or([0; 3]);
        channels.get(channel).copied().unwrap_or(0)
    }

    fn value(&self, point: usize, operand: Operand<Reading>) -> i32 {
        match operand {
            Operand::Limit(limit) => self.limits[limit.index()],
            Operand::Channel(channel) => self.mark(point, channel),
            Operand::Constant(mark) => mark.to_i32(),
        }
    }

    // At some place from here on.
    fn sometime(&self, part: usize, from: usize) -> bool {
        (from..POINTS).any(|at| self.at(part, at))
    }

    // At all places from here to before the end given.
    fn throughout(&self, part: usize, from: usize, end: usize) -> bool {
        (from..end).all(|at| self.at(part, at))
    }

    // The right at some place, and the left at all before it.
    fn until(&self, left: usize, right: usize, from: usize) -> bool {
        (from..POINTS).any(|at| self.at(right, at) && self.throughout(left, from, at))
    }

    // The left at all places, or up to one where the right is true too.
    fn weak_until(&self, left: usize, right: usize, from: usize) -> bool {
        self.throughout(left, from, POINTS)
            || (from..POINTS).any(|at| self.at(right, at) && self.throughout(left, from, at + 1))
    }

    fn unary(&self, operator: UnaryOperator, operand: usize, point: usize) -> bool {
        match operator {
            UnaryOperator::Not => !self.at(operand, point),
            UnaryOperator::Next => self.at(operand, if point < LAST { point + 1 } else { LAST }),
            UnaryOperator::Finally => self.sometime(operand, point),
            UnaryOperator::Globally => self.throughout(operand, point, POINTS),
        }
    }

    fn binary(&self, operator: BinaryOperator, left: usize, right: usize, point: usize) -> bool {
        match operator {
            BinaryOperator::Until => self.until(left, right, point),
            BinaryOperator::WeakUntil => self.weak_until(left, right, point),
            BinaryOperator::And => self.at(left, point) && self.at(right, point),
            BinaryOperator::Or => self.at(left, point) || self.at(right, point),
            BinaryOperator::Implies => !self.at(left, point) || self.at(right, point),
        }
    }

    fn of(&self, part: Part<Reading>, point: usize) -> bool {
        match part {
            Part::Comparison {
                channel,
                comparator,
                operand,
            } => {
                let mark = self.mark(point, channel);
                let value = self.value(point, operand);
                match comparator {
                    Comparator::Less => mark < value,
                    Comparator::Greater => mark > value,
                    Comparator::AtMost => mark <= value,
                    Comparator::AtLeast => mark >= value,
                }
            }
            Part::Unary { operator, operand } => self.unary(operator, operand, point),
            Part::Binary {
                operator,
                left,
                right,
            } => self.binary(operator, left, right, point),
        }
    }

    // One part at every point.
    fn row(&self, part: Part<Reading>) -> [bool; POINTS] {
        array::from_fn(|point| self.of(part, point))
    }

    // Every part at every point, operands first.
    pub(crate) fn fill(&mut self, parts: &[Part<Reading>]) {
        for (number, part) in parts.iter().enumerate() {
            let row = self.row(*part);
            if let Some(place) = self.rows.get_mut(number) {
                *place = row;
            }
        }
    }
}

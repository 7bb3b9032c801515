// The parts that a formula is made of: comparisons, and operators over parts with lower numbers.
ghost use Rattle.std.specs.Prelude.{◌≡◌, Result, nat_le};
ghost use Rattle.formula.specs.Conversions.{ConvertsOperand, ConvertsPart};
ghost use Rattle.formula.specs.Orders.{reach};
ghost use Rattle.formula.specs.Parts.{limit_index, opposed};

// A limit that the rule leaves open.
#[derive(Clone, Copy, PartialEq, Eq, Debug)]
pub enum LimitName {
    P,
    Q,
    R,
}

impl LimitName {
    // The place of the limit among the three.
    pub fn index(self) -> usize
        ensures { result ≡ limit_index self }
    {
        self as usize
    }
}

// `<`, `>`, `<=` and `>=`.
#[derive(Clone, Copy, PartialEq, Eq, Debug)]
pub enum Comparator {
    Less,
    Greater,
    AtMost,
    AtLeast,
}

impl Comparator {
    // The comparator that holds exactly where this one does not.
    pub fn opposite(self) -> Comparator
        ensures { result ≡ opposed self }
    {
        match self {
            Comparator::Less => Comparator::AtLeast,
            Comparator::Greater => Comparator::AtMost,
            Comparator::AtMost => Comparator::Greater,
            Comparator::AtLeast => Comparator::Less,
        }
    }
}

// What a channel is compared with. `K` is the kind of constants.
#[derive(Clone, Copy)]
pub enum Operand<K> {
    Limit(LimitName),
    Channel(usize),
    Constant(K),
}

// How constants of one kind are made of those of another, and which are refused.
pub trait Conversion<K, L> {
    type Fault;

    // What may be answered for a constant.
    ghost answers: { Self → K → Result L Self.Fault → Type 0 };

    fn convert(&self, constant: K) -> Result<L, Self::Fault>
        ensures { answers self.now constant result };
}

impl<K> Operand<K> {
    // The operand with its constant converted, if it is one.
    fn convert<L, C: Conversion<K, L>>(self, by: &C) -> Result<Operand<L>, C::Fault>
        ensures { ConvertsOperand (C.answers by.now) self result }
    {
        match self {
            Operand::Limit(name) => Ok(Operand::Limit(name)),
            Operand::Channel(channel) => Ok(Operand::Channel(channel)),
            Operand::Constant(constant) => Ok(Operand::Constant(by.convert(constant)?)),
        }
    }
}

// `!`, `X`, `F` and `G`.
#[derive(Clone, Copy, PartialEq, Eq, Debug)]
pub enum UnaryOperator {
    Not,
    Next,
    Finally,
    Globally,
}

// `U`, `W`, `&`, `|` and `=>`.
#[derive(Clone, Copy, PartialEq, Eq, Debug)]
pub enum BinaryOperator {
    Until,
    WeakUntil,
    And,
    Or,
    Implies,
}

// One part of a formula; operands are numbers of other parts.
#[derive(Clone, Copy)]
pub enum Part<K> {
    Comparison {
        channel: usize,
        comparator: Comparator,
        operand: Operand<K>,
    },
    Unary {
        operator: UnaryOperator,
        operand: usize,
    },
    Binary {
        operator: BinaryOperator,
        left: usize,
        right: usize,
    },
}

impl<K: Copy> Part<K> {
    // Whether the operands have lower numbers than the one given.
    pub fn comes_after(&self, number: usize) -> bool
        ensures { result ≡ nat_le (reach self.now) number }
    {
        match self {
            Part::Comparison { .. } => true,
            Part::Unary { operand, .. } => *operand < number,
            Part::Binary { left, right, .. } => *left < number && *right < number,
        }
    }
}

impl<K> Part<K> {
    // The part with its constant converted, if it has one.
    pub fn convert<L, C: Conversion<K, L>>(self, by: &C) -> Result<Part<L>, C::Fault>
        ensures { ConvertsPart (C.answers by.now) self result }
    {
        match self {
            Part::Comparison {
                channel,
                comparator,
                operand,
            } => Ok(Part::Comparison {
                channel,
                comparator,
                operand: operand.convert(by)?,
            }),
            Part::Unary { operator, operand } => Ok(Part::Unary { operator, operand }),
            Part::Binary {
                operator,
                left,
                right,
            } => Ok(Part::Binary {
                operator,
                left,
                right,
            }),
        }
    }
}

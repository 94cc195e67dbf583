//! The operators of an expression, and their precedence.

ghost use Rattle.std.specs.Prelude.{◌≡◌, ◌<◌, ◌≤◌};
ghost use Rattle.ldscript_terms.specs.Operators.{unary_of, binary_of, level_of};

use ldscript_tokens::token::Mark;

/// A unary operator.
#[derive(Clone, Copy, Debug, PartialEq, Eq)]
pub enum UnaryOperator {
    /// `!`: 1 of 0, else 0.
    Not,
    /// `-`, modulo 2^64.
    Negate,
    /// `~`: each bit inverted.
    Complement,
}

/// A binary operator.
#[derive(Clone, Copy, Debug, PartialEq, Eq)]
pub enum BinaryOperator {
    /// `*`
    Multiply,
    /// `/`
    Divide,
    /// `%`
    Remainder,
    /// `+`
    Add,
    /// `-`
    Subtract,
    /// `<<`
    ShiftLeft,
    /// `>>`
    ShiftRight,
    /// `<`
    Less,
    /// `<=`
    LessOrEqual,
    /// `>`
    Greater,
    /// `>=`
    GreaterOrEqual,
    /// `==`
    Equal,
    /// `!=`
    NotEqual,
    /// `&`
    BitAnd,
    /// `|`
    BitOr,
    /// `&&`
    And,
    /// `||`
    Or,
}

impl BinaryOperator {
    /// Its level of precedence: 1 for `* / %`, the tightest, to 9 for `||`.
    pub fn level(self) -> u8
        ensures { result ≡ level_of self }
    {
        match self {
            BinaryOperator::Multiply | BinaryOperator::Divide | BinaryOperator::Remainder => 1,
            BinaryOperator::Add | BinaryOperator::Subtract => 2,
            BinaryOperator::ShiftLeft | BinaryOperator::ShiftRight => 3,
            BinaryOperator::Less
            | BinaryOperator::LessOrEqual
            | BinaryOperator::Greater
            | BinaryOperator::GreaterOrEqual => 4,
            BinaryOperator::Equal | BinaryOperator::NotEqual => 5,
            BinaryOperator::BitAnd => 6,
            BinaryOperator::BitOr => 7,
            BinaryOperator::And => 8,
            BinaryOperator::Or => 9,
        }
    }
}

/// The unary operator that a mark is.
pub fn unary_operator(mark: Mark) -> Option<UnaryOperator>
    ensures { result ≡ unary_of mark }
{
    match mark {
        Mark::Not => Some(UnaryOperator::Not),
        Mark::Minus => Some(UnaryOperator::Negate),
        Mark::Complement => Some(UnaryOperator::Complement),
        _ => None,
    }
}

/// The binary operator that a mark is.
pub fn binary_operator(mark: Mark) -> Option<BinaryOperator>
    ensures { result ≡ binary_of mark }
{
    match mark {
        Mark::Star => Some(BinaryOperator::Multiply),
        Mark::Slash => Some(BinaryOperator::Divide),
        Mark::Percent => Some(BinaryOperator::Remainder),
        Mark::Plus => Some(BinaryOperator::Add),
        Mark::Minus => Some(BinaryOperator::Subtract),
        Mark::ShiftLeft => Some(BinaryOperator::ShiftLeft),
        Mark::ShiftRight => Some(BinaryOperator::ShiftRight),
        Mark::Less => Some(BinaryOperator::Less),
        Mark::LessOrEqual => Some(BinaryOperator::LessOrEqual),
        Mark::Greater => Some(BinaryOperator::Greater),
        Mark::GreaterOrEqual => Some(BinaryOperator::GreaterOrEqual),
        Mark::Equal => Some(BinaryOperator::Equal),
        Mark::NotEqual => Some(BinaryOperator::NotEqual),
        Mark::And => Some(BinaryOperator::BitAnd),
        Mark::Or => Some(BinaryOperator::BitOr),
        Mark::AndAnd => Some(BinaryOperator::And),
        Mark::OrOr => Some(BinaryOperator::Or),
        _ => None,
    }
}

// `PredicateOperator` with the crate's codes (src/expr/mod.rs).
ghost use Rattle.std.specs.Prelude.{◌≡◌};
ghost use Rattle.values.specs.Numbered.{find};
ghost use Rattle.expr.specs.Operators.{operators, operator_number, by_arity};
ghost use Rattle.expr.specs.code.OperatorAnswers.{negated, takes_none, takes_many};

use values::error::ErrorKind;

// The most literals of a sheet to be projected, and of one to be tested.
pub const PROJECT_LIMIT: usize = 64;

pub const HOLDS_LIMIT: usize = 128;

#[derive(Clone, Copy, PartialEq, Eq)]
pub enum PredicateOperator {
    // Unary operators.
    IsNull = 101,
    NotNull,
    IsNan,
    NotNan,
    // Binary operators.
    LessThan = 201,
    LessThanOrEq,
    GreaterThan,
    GreaterThanOrEq,
    Eq,
    NotEq,
    StartsWith,
    NotStartsWith,
    // Set operators.
    In = 301,
    NotIn,
}

// The operator with one of the crate's codes.
impl TryFrom<u16> for PredicateOperator {
    type Error = ErrorKind;

    ghost try_from_gives = { λ n found. found ≡ find operators n };

    fn try_from(number: u16) -> Result<PredicateOperator, ErrorKind> {
        match number {
            101 => Ok(PredicateOperator::IsNull),
            102 => Ok(PredicateOperator::NotNull),
            103 => Ok(PredicateOperator::IsNan),
            104 => Ok(PredicateOperator::NotNan),
            201 => Ok(PredicateOperator::LessThan),
            202 => Ok(PredicateOperator::LessThanOrEq),
            203 => Ok(PredicateOperator::GreaterThan),
            204 => Ok(PredicateOperator::GreaterThanOrEq),
            205 => Ok(PredicateOperator::Eq),
            206 => Ok(PredicateOperator::NotEq),
            207 => Ok(PredicateOperator::StartsWith),
            208 => Ok(PredicateOperator::NotStartsWith),
            301 => Ok(PredicateOperator::In),
            302 => Ok(PredicateOperator::NotIn),
            _ => Err(ErrorKind::Malformed),
        }
    }
}

impl From<PredicateOperator> for u16 {
    ghost from_gives = { λ operator n. n ≡ operator_number operator };

    fn from(operator: PredicateOperator) -> u16 {
        operator as u16
    }
}

impl PredicateOperator {
    // Whether the operator takes no literal.
    pub fn is_unary(self) -> bool
        ensures { result ≡ takes_none (by_arity self) }
    {
        matches!(
            self,
            PredicateOperator::IsNull
                | PredicateOperator::NotNull
                | PredicateOperator::IsNan
                | PredicateOperator::NotNan
        )
    }

    // Whether the operator takes a set of literals.
    pub fn is_set(self) -> bool
        ensures { result ≡ takes_many (by_arity self) }
    {
        matches!(self, PredicateOperator::In | PredicateOperator::NotIn)
    }

    // The operator that holds of a present value where this one does not.
    pub fn negate(self) -> PredicateOperator
        ensures { result ≡ negated self }
    {
        match self {
            PredicateOperator::IsNull => PredicateOperator::NotNull,
            PredicateOperator::NotNull => PredicateOperator::IsNull,
            PredicateOperator::IsNan => PredicateOperator::NotNan,
            PredicateOperator::NotNan => PredicateOperator::IsNan,
            PredicateOperator::LessThan => PredicateOperator::GreaterThanOrEq,
            PredicateOperator::LessThanOrEq => PredicateOperator::GreaterThan,
            PredicateOperator::GreaterThan => PredicateOperator::LessThanOrEq,
            PredicateOperator::GreaterThanOrEq => PredicateOperator::LessThan,
            PredicateOperator::Eq => PredicateOperator::NotEq,
            PredicateOperator::NotEq => PredicateOperator::Eq,
            PredicateOperator::StartsWith => PredicateOperator::NotStartsWith,
            PredicateOperator::NotStartsWith => PredicateOperator::StartsWith,
            PredicateOperator::In => PredicateOperator::NotIn,
            PredicateOperator::NotIn => PredicateOperator::In,
        }
    }
}

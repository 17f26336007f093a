//! The findings of a unit: the errors in it, of which the least is reported.
ghost use Rattle.std.specs.Prelude.{◌≡◌};
ghost use Rattle.inf_expressions.specs.Findings.{error_number, is_before, least, least_of_both, no_constant, out_of_range};
ghost use Rattle.inf_expressions.specs.Findings.{too_many_arguments, wrong_kind};

/// An error of a unit. The errors stand in the order of the table of messages.
#[derive(Clone, Copy)]
pub enum UnitError {
    /// A code in a text is out of range.
    NumberOutOfRange,
    /// A text has an escape that is unknown, or that may not stand there.
    UnknownEscape,
    /// A text has a character that a story cannot print.
    NoZscii,
    /// A name is declared already.
    Declared,
    /// A token names something that is not allowed where it is.
    WrongKind,
    /// A name is used before its declaration.
    UsedBefore,
    /// There is no constant where one is needed.
    NotConstant,
    /// A known number is not allowed where it is.
    ConstantOutOfRange,
    /// A call has too many arguments.
    TooManyArguments,
    /// An instruction is unknown, or its operands do not fit.
    WrongOpcode,
    /// A label is given again.
    LabelTwice,
    /// A `break` or `continue` stands outside of what it leaves or continues.
    NothingToLeave,
    /// There is one more of a kind than there can be.
    TooMany,
    /// `Switches` comes too late, or has letters that are unknown.
    MisplacedSwitches,
    /// An abbreviation comes too late, is declared already or is too short.
    WrongAbbreviation,
    /// A word is that of a verb already, or of none where there has to be one.
    WrongVerb,
    /// A case or a default stands behind a default.
    MisplacedDefault,
}

impl UnitError {
    /// Returns the number of the error in the table of messages, by which errors at one token are compared.
    #[tactic(auto, unfolding(crate::specs::Findings::error_number))]
    fn number(self) -> u8
        ensures { result ≡ error_number self }
    {
        match self {
            UnitError::NumberOutOfRange => 4,
            UnitError::UnknownEscape => 5,
            UnitError::NoZscii => 7,
            UnitError::Declared => 8,
            UnitError::WrongKind => 9,
            UnitError::UsedBefore => 11,
            UnitError::NotConstant => 12,
            UnitError::ConstantOutOfRange => 13,
            UnitError::TooManyArguments => 14,
            UnitError::WrongOpcode => 15,
            UnitError::LabelTwice => 16,
            UnitError::NothingToLeave => 17,
            UnitError::TooMany => 19,
            UnitError::MisplacedSwitches => 20,
            UnitError::WrongAbbreviation => 21,
            UnitError::WrongVerb => 22,
            UnitError::MisplacedDefault => 24,
        }
    }
}

/// An error of a unit, at a token.
#[derive(Clone, Copy)]
pub struct Finding {
    /// The order of the token at which the error is reported.
    pub order: u32,
    pub error: UnitError,
}

impl Finding {
    /// Returns that the token with this order names something that is not allowed there.
    pub fn wrong_kind(order: u32) -> Finding
        ensures { result ≡ wrong_kind order }
    {
        Finding {
            order,
            error: UnitError::WrongKind,
        }
    }

    /// Returns that a unit that begins at this order has no constant where one is needed.
    pub fn no_constant(order: u32) -> Finding
        ensures { result ≡ no_constant order }
    {
        Finding {
            order,
            error: UnitError::NotConstant,
        }
    }

    /// Returns that a number in a unit that begins at this order is impossible.
    pub fn out_of_range(order: u32) -> Finding
        ensures { result ≡ out_of_range order }
    {
        Finding {
            order,
            error: UnitError::ConstantOutOfRange,
        }
    }

    /// Returns that a call in a unit that begins at this order has too many arguments.
    pub fn too_many_arguments(order: u32) -> Finding
        ensures { result ≡ too_many_arguments order }
    {
        Finding {
            order,
            error: UnitError::TooManyArguments,
        }
    }

    /// Returns whether this finding comes before `other`: by the order of the token, then by the number of the error.
    fn is_before(self, other: Finding) -> bool
        ensures { result ≡ is_before self other }
    {
        let number = self.error.number();
        let other_number = other.error.number();
        self.order < other.order || self.order == other.order && number < other_number
    }
}

/// Returns the lesser of `found`, if there is one, and of `finding`: by the order of the token, then by the number of the error.
pub fn least(found: Option<Finding>, finding: Finding) -> Option<Finding>
    ensures { result ≡ least found finding }
{
    match found {
        None => Some(finding),
        Some(old) => {
            if finding.is_before(old) {
                Some(finding)
            } else {
                Some(old)
            }
        }
    }
}

/// Returns the least of the findings in two parts of a unit.
pub fn least_of_both(first: Option<Finding>, second: Option<Finding>) -> Option<Finding>
    ensures { result ≡ least_of_both first second }
{
    match second {
        None => first,
        Some(finding) => least(first, finding),
    }
}

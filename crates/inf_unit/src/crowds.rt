//! The values of a statement that prints more than code may have bytes for, or that gives or takes as many attributes.
//!
//! Such a statement passes that setting, if nothing is wrong with it. For a further value it matters only whether something is wrong
//! with it that is told before all else that is wrong, and whether it passes a setting that is told before that one: by a name or a
//! word that did not come before, or by what it lays beside bytes. The number of an action depends on the actions before it.
ghost use Rattle.std.specs.Prelude.{◌≡◌, None};
ghost use Rattle.inf_expressions.specs.Findings.{error_number, is_before};
ghost use Rattle.inf_unit.specs.Crowds.{crowd, is_lesser, is_telling, no_crowd, with_value, without_value};

use crate::long_lines::LongLine;
use inf_expressions::{Finding, Operand, UnitError, least_of_both};
use inf_gathering::gathering::Extent;
use inf_names::hashing::NameHashing;
use inf_names::symbols::Symbols;
use inf_scanner::Place;
use inf_settings::bounds::Unbounded;
use std::alloc::Global;

/// The values that are kept, and what is known of the one at hand.
#[derive(Drop)]
pub struct Crowd {
    /// The number of the unit's tokens that are kept, and the names and the words that came.
    pub line: LongLine,
    /// The number of the unit's items that are kept.
    pub items: usize,
    /// The least number of bytes of the code of the items that are kept.
    pub code: usize,
    /// The extent of what is kept of what was gathered.
    pub extent: Extent,
    /// The operands of the leaves that are kept, and of those of the value at hand that came.
    pub operands: Vec<Operand>,
    /// The actions that are new in the unit.
    pub actions: Symbols<Place, Unbounded>,
    /// The least finding about the values that are kept.
    pub least: Option<Finding>,
    /// Tells whether the value at hand may pass a setting that is told before that of the bytes of code.
    pub tells: bool,
    /// Tells whether an action in the value at hand is new.
    pub acts: bool,
}

/// Returns the number of `error` in the table of messages, by which errors at one token are compared.
#[tactic(auto, unfolding(inf_expressions::specs::Findings::error_number))]
fn error_number(error: UnitError) -> u8
    ensures { result ≡ error_number error }
{
    match error {
        UnitError::NumberOutOfRange => 4,
        UnitError::UnknownEscape => 5,
        UnitError::NoZscii => 7,
        UnitError::Declared => 8,
        UnitError::WrongKind => 9,
        UnitError::UsedBefore => 11,
        UnitError::NotConstant => 12,
        UnitError::ConstantOutOfRange => 13,
        UnitError::TooManyArguments => 14,
        UnitError::WrongOpcode => 15,
        UnitError::LabelTwice => 16,
        UnitError::NothingToLeave => 17,
        UnitError::TooMany => 19,
        UnitError::MisplacedSwitches => 20,
        UnitError::WrongAbbreviation => 21,
        UnitError::WrongVerb => 22,
        UnitError::MisplacedDefault => 24,
    }
}

/// Returns whether `finding` comes before `other`: by the order of the token, then by the number of the error.
fn is_before(finding: Finding, other: Finding) -> bool
    ensures { result ≡ is_before finding other }
{
    let number = error_number(finding.error);
    let other_number = error_number(other.error);
    finding.order < other.order || finding.order == other.order && number < other_number
}

fn is_lesser(least: Option<Finding>, finding: Option<Finding>) -> bool
    ensures { result ≡ is_lesser least finding }
{
    match (least, finding) {
        (_, None) => false,
        (None, Some(_)) => true,
        (Some(old), Some(new)) => is_before(new, old),
    }
}

impl Crowd {
    /// Makes a crowd where nothing is kept so far. The value at hand is then all that the unit has, and is kept.
    pub(crate) fn new(alloc: Global, hashing: NameHashing) -> Crowd
        ensures { crowd result ≡ no_crowd }
    {
        Crowd {
            line: LongLine::new(alloc, hashing, 0, false),
            items: 0,
            code: 0,
            extent: Extent {
                leaves: 0,
                symbols: 0,
                wholes: 0,
            },
            operands: Vec::new(alloc),
            actions: Symbols::new(alloc, u32::MAX, false, hashing),
            least: None,
            tells: true,
            acts: false,
        }
    }

    pub(crate) fn is_telling(&self, finding: Option<Finding>) -> bool
        ensures { result ≡ is_telling finding (crowd self.now) }
    {
        is_lesser(self.least, finding) | (self.acts | (self.tells & self.least.is_none()))
    }

    /// Keeps the value at hand, with which the unit has `count` tokens and `items` items, whose code has `code` bytes at least, and
    /// has gathered `extent`.
    pub(crate) fn keep(
        &mut self,
        count: usize,
        items: usize,
        code: usize,
        extent: Extent,
        finding: Option<Finding>,
    )
        ensures { crowd self.new ≡ with_value count items code extent finding (crowd self.old) }
    {
        self.line.count = count;
        self.items = items;
        self.code = code;
        self.extent = extent;
        self.least = least_of_both(self.least, finding);
        self.tells = false;
        self.acts = false;
    }

    /// Forgets the value at hand.
    pub(crate) fn pass(&mut self)
        ensures { crowd self.new ≡ without_value (crowd self.old) }
    {
        self.operands.truncate(self.extent.leaves);
        self.tells = false;
        self.acts = false;
    }
}

/// Forgets `crowd`, if there is one.
#[inline(always)]
pub(crate) fn forget_crowd(crowd: &mut Option<Crowd>)
    ensures { crowd.new ≡ None }
{
    if crowd.is_some() {
        drop_crowd(crowd);
    }
}

/// Forgets `crowd`. This stands apart, since few units have such values, and the drop reads all of them.
#[cold]
#[inline(never)]
fn drop_crowd(crowd: &mut Option<Crowd>)
    ensures { crowd.new ≡ None }
{
    *crowd = None;
}

//! The findings about a unit, and the messages by which they are told.
ghost use Rattle.std.specs.Prelude.{option_map, ◌≡◌};
ghost use Rattle.inf_report.specs.Meant.{meant};
ghost use Rattle.inf_names.specs.{LocalList.headed as as_headed, LocalList.repeated as repeated_of, Spellings.as_name};
ghost use Rattle.inf_unit.specs.Diagnostics.{blamed};
ghost use Rattle.inf_compilation.specs.Findings.{again_by, again_finding, again_local, again_message, again_told, blame_of, found_alone};
ghost use Rattle.inf_compilation.specs.Findings.{header_findings, many_finding, nothing_found, told_as};
ghost use Rattle.inf_compilation.specs.Meant.{again_as, found_as};

use inf_expressions::{Finding, UnitError, least_of_both};
use inf_lexer::{Place, Stack};
use inf_names::locals::{Headed, Repeated};
use inf_names::spellings::Name;
use inf_names::symbols::DeclareFault;
use inf_report::messages::{FixedLimit, Message, Told};
use inf_unit::messages::{Diagnostic, location, message_of};
use inf_unit::unit_tokens::UnitTokens;

/// Place before the first unit, where nothing was laid.
pub(crate) const NOWHERE: Place = Place { file: 0, line: 0 };

/// Returns the message and the place by which `finding` is told, of a unit with `tokens`.
pub fn blame_of<'t>(tokens: &'t UnitTokens, finding: Finding) -> Diagnostic<'t>
    ensures { blamed result ≡ blame_of tokens.now finding }
{
    match tokens.get(finding.order as usize) {
        Some(token) => Diagnostic {
            place: token.place,
            message: message_of(finding.error, token.told(), token.bytes),
        },
        None => Diagnostic {
            place: NOWHERE,
            message: message_of(finding.error, Told::End, b""),
        },
    }
}

/// A name that is declared already.
#[derive(Drop)]
pub struct Again {
    pub name: Name,
    /// The place of its first declaration, which a name of the language does not have.
    pub first: Option<Place>,
}

/// Findings about a unit. Of all that was found the least is told, by the order of its token and then by the number of its error.
#[derive(Drop)]
pub struct Findings {
    pub least: Option<Finding>,
    /// The limit that is passed, where the least finding is that there are too many.
    pub many: FixedLimit,
    /// The name that is declared already, where the least finding is about it.
    pub again: Option<Again>,
}

/// Returns `name` as one that is declared already, if `refused` says so. That there are too many names is no error of the unit.
pub fn again_by(name: &Name, refused: Option<DeclareFault<Place>>) -> Option<Again>
    ensures { option_map again_as result ≡ again_by (as_name name.now) refused }
{
    match refused? {
        DeclareFault::Present(first) => Some(Again {
            name: Name::new(name.bytes(), name.place),
            first,
        }),
        DeclareFault::Full | DeclareFault::Memory => None,
    }
}

/// Returns the finding that `again` is declared already, if there is such a name, at its order `order`.
pub fn again_finding(order: u32, again: &Option<Again>) -> Option<Finding>
    ensures { result ≡ again_finding order (option_map again_as again.now) }
{
    match again {
        Some(_) => Some(Finding {
            order,
            error: UnitError::Declared,
        }),
        None => None,
    }
}

/// Returns the finding that there is one more than there may be, if `are_many`. It is told of the first token.
pub fn many_finding(are_many: bool) -> Option<Finding>
    ensures { result ≡ many_finding are_many }
{
    if are_many {
        Some(Finding {
            order: 0,
            error: UnitError::TooMany,
        })
    } else {
        None
    }
}

fn again_local(repeated: &Option<Repeated>) -> Option<Again>
    ensures { option_map again_as result ≡ again_local (option_map repeated_of repeated.now) }
{
    match repeated {
        Some(repeated) => Some(Again {
            name: Name::new(repeated.name.bytes(), repeated.name.place),
            first: Some(repeated.first),
        }),
        None => None,
    }
}

/// Returns the findings about the header of a routine: that `headed` has too many locals, that its name, at `order`, is declared
/// already by `of_name`, or that a local of `headed` is named again.
pub fn header_findings(order: u32, of_name: Option<Again>, headed: &Headed) -> Findings
    ensures { found_as result ≡ header_findings order (option_map again_as of_name) (as_headed headed.now) }
{
    let again = match of_name {
        Some(again) => Some(again),
        None => again_local(&headed.repeated),
    };
    Findings {
        least: least_of_both(
            many_finding(headed.are_too_many),
            again_finding(order, &again),
        ),
        many: FixedLimit::Locals,
        again,
    }
}

impl Findings {
    /// Returns the findings about a unit in which nothing but `least` may be wrong.
    pub fn alone(least: Option<Finding>) -> Findings
        ensures { found_as result ≡ found_alone least }
    {
        Findings {
            least,
            many: FixedLimit::Values,
            again: None,
        }
    }

    /// Returns the findings about a unit in which nothing is wrong.
    pub fn none() -> Findings
        ensures { found_as result ≡ nothing_found }
    {
        Findings::alone(None)
    }

    /// Returns the message of the least finding, about a unit that begins at `first` and has `tokens`, if there is a finding.
    #[tactic(auto, unfolding(crate::specs::Findings::told_by))]
    pub(crate) fn told<'t>(
        &'t self,
        files: &'t Stack,
        tokens: &'t UnitTokens,
        first: Place,
    ) -> Option<Diagnostic<'t>>
        ensures { option_map blamed result ≡ told_as files.now.names tokens.now first (found_as self.now) }
    {
        let finding = self.least?;
        match finding.error {
            UnitError::Declared => again_told(files, &self.again),
            UnitError::TooMany => Some(Diagnostic {
                place: first,
                message: Message::TooMany(self.many),
            }),
            _ => Some(blame_of(tokens, finding)),
        }
    }
}

/// Returns the message about `again`, a name that is declared already, if there is such a name.
fn again_told<'a>(files: &'a Stack, again: &'a Option<Again>) -> Option<Diagnostic<'a>>
    ensures { option_map blamed result ≡ option_map (again_told files.now.names) (option_map again_as again.now) }
{
    match again {
        Some(again) => Some(Diagnostic {
            place: again.name.place,
            message: again_message(files, again.name.bytes(), again.first),
        }),
        None => None,
    }
}

/// Returns the message about `name`, which is declared already: at `first`, or by the language.
fn again_message<'a>(files: &'a Stack, name: &'a [u8], first: Option<Place>) -> Message<'a>
    ensures { meant result ≡ again_message files.now.names name.now first }
{
    match first {
        Some(first) => Message::Declared(name, location(files, first)),
        None => Message::SystemName(name),
    }
}

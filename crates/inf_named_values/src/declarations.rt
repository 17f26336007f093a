//! The common parts of all declarations: the findings about a name, its declaration with a meaning, and the end of its directive.
ghost use Rattle.inf_compilation.specs.{Context.handed, Meant.again_as, Meant.found_as, Works.work};
ghost use Rattle.std.specs.Prelude.{IfOk, OnOk, map, option_map, ◌≡◌};
ghost use Rattle.inf_names.specs.Spellings.{as_name};
ghost use Rattle.inf_named_values.specs.Declarations.{alias_finding, alias_meaning, alias_told, aliased, declaration_ended};
ghost use Rattle.inf_named_values.specs.Declarations.{declared_ended, declared_finding, declared_findings, is_alias, is_late};
ghost use Rattle.inf_named_values.specs.Declarations.{is_name_at, last_meaning, late_finding, name_declared, name_known, names_itself};
ghost use Rattle.inf_named_values.specs.Declarations.{nothing_of, plainly_known, standing_fault, valued};

use inf_compilation::compilation::Compilation;
use inf_compilation::context::Context;
use inf_compilation::findings::{Again, Findings, again_by, again_finding, many_finding};
use inf_expressions::{Finding, UnitError, Wanted, least_of_both};
use inf_gathering::gathering::Leaf;
use inf_lexer::Place;
use inf_names::meanings::Meaning;
use inf_names::spellings::Name;
use inf_names::symbols::{DeclareFault, Found};
use inf_output::Output;
use inf_report::messages::FixedLimit;
use inf_settings::bounds::Bounds;
use inf_unit::unit::order;
use inf_unit::unit_tokens::UnitTokens;
use std::alloc::AllocError;

/// The number of the first global variable (Z-Machine Standard 1.1, section 6.2).
pub const FIRST_GLOBAL: u8 = 16;

/// A declaration, as far as it is known: the answer of the look-up of its name, and the least of the findings about it.
#[derive(Clone, Copy)]
pub struct Declared {
    pub found: Found<Place>,
    pub finding: Option<Finding>,
}

fn standing_fault(found: Found<Place>) -> Option<DeclareFault<Place>>
    ensures { result ≡ standing_fault found }
{
    match found {
        Found::System(_) => Some(DeclareFault::Present(None)),
        Found::Declared(_, first) => Some(DeclareFault::Present(Some(first))),
        Found::Used | Found::Unknown => None,
    }
}

fn is_name_at(tokens: &UnitTokens, name: &[u8], leaf: Leaf) -> bool
    ensures { result ≡ is_name_at tokens.now name.now leaf }
{
    match leaf {
        Leaf::Name(at) => tokens.bytes_at(at).eq_ignore_ascii_case(name),
        _ => false,
    }
}

/// Returns whether an expression has the name that its unit declares.
fn names_itself(tokens: &UnitTokens, name: &[u8], leaves: &[Leaf]) -> bool
    ensures { result ≡ names_itself tokens.now name.now leaves.now }
{
    let mut found = false;
    for leaf in leaves {
        found = found | is_name_at(tokens, name, *leaf);
    }
    found
}

/// Returns whether a name was used before its declaration, by `found`, the answer of its look-up, or is used by the
/// declaration, by `names_itself`.
pub fn is_late(found: Found<Place>, names_itself: bool) -> bool
    ensures { result ≡ is_late found names_itself }
{
    match found {
        Found::Used => true,
        Found::Unknown => names_itself,
        Found::System(_) | Found::Declared(..) => false,
    }
}

/// Returns the finding that a name, which has `order`, is used before its declaration, where `is_late`.
fn late_finding(order: u32, is_late: bool) -> Option<Finding>
    ensures { result ≡ late_finding order is_late }
{
    if is_late {
        Some(Finding {
            order,
            error: UnitError::UsedBefore,
        })
    } else {
        None
    }
}

/// Returns the finding about a declaration beside its expression: at `order`, that its name is declared already or is
/// late, or that `are_many` of its kind are declared.
fn declared_finding(
    order: u32,
    again: &Option<Again>,
    is_late: bool,
    are_many: bool,
) -> Option<Finding>
    ensures { result ≡ declared_finding order (option_map again_as again.now) is_late are_many }
{
    least_of_both(
        again_finding(order, again),
        least_of_both(late_finding(order, is_late), many_finding(are_many)),
    )
}

/// Returns whether behind its name a declaration has the name of another one, and no expression.
pub fn is_alias(names: &[Name], leaves: &[Leaf]) -> bool
    ensures { result ≡ is_alias (map as_name names.now) leaves.now }
{
    !names.is_empty() && leaves.is_empty()
}

/// Returns the meaning of a name of `kind` that is another name of one, by `found`, the answer of the look-up of that one.
fn alias_meaning(kind: FixedLimit, found: Found<Place>) -> Option<Meaning>
    ensures { result ≡ alias_meaning kind found }
{
    match (kind, found) {
        (FixedLimit::Attributes, Found::Declared(Meaning::Attribute(number), _)) => {
            Some(Meaning::Attribute(number))
        }
        (FixedLimit::Attributes, _) => None,
        (
            _,
            Found::Declared(
                Meaning::Property {
                    number,
                    is_additive,
                },
                _,
            ),
        ) => Some(Meaning::Property {
            number,
            is_additive,
        }),
        (
            _,
            Found::System(
                Meaning::Property {
                    number,
                    is_additive,
                },
            ),
        ) => Some(Meaning::Property {
            number,
            is_additive,
        }),
        _ => None,
    }
}

/// Returns the meaning of a name of `kind` whose declaration has an error.
pub fn nothing_of(kind: FixedLimit) -> Meaning
    ensures { result ≡ nothing_of kind }
{
    match kind {
        FixedLimit::Attributes => Meaning::Attribute(0),
        FixedLimit::Globals => Meaning::Variable(FIRST_GLOBAL),
        _ => Meaning::Property {
            number: 0,
            is_additive: false,
        },
    }
}

/// Returns the finding that the last of these tokens names no attribute or property, unless it has a `meaning`.
fn alias_finding(tokens: &UnitTokens, meaning: Option<Meaning>) -> Option<Finding>
    ensures { result ≡ alias_finding tokens.now meaning }
{
    match meaning {
        Some(_) => None,
        None => Some(Finding::wrong_kind(order(tokens.len().saturating_sub(1)))),
    }
}

/// Returns the meaning of an alias: `meaning`, or that of no name of its `kind` where `found` is an error.
fn aliased(kind: FixedLimit, meaning: Option<Meaning>, found: Option<Finding>) -> Meaning
    ensures { result ≡ aliased kind meaning found }
{
    match (meaning, found) {
        (Some(meaning), None) => meaning,
        _ => nothing_of(kind),
    }
}

/// Declares `name`, where it stands, with `meaning`. A name that is declared already stays as it is, and one more than there may be passes
/// the limit.
pub fn declare<B: Bounds>(
    name: &Name,
    meaning: Meaning,
    out: &mut Output<B>,
) -> Result<(), AllocError>
    ensures { OnOk result (out.new ≡ name_declared B.most (as_name name.now) meaning out.old) }
{
    out.declare(name.bytes(), name.place, meaning)?;
    Ok(())
}

/// Looks for `name`, which is declared by a token of `order`, and returns the declaration as far as it is known. The
/// finding is that the name is declared already; whether it was used before does not matter.
pub fn plainly_known<B: Bounds>(compilation: &Compilation<B>, name: &Name, order: u32) -> Declared
    ensures { result ≡ plainly_known (as_name name.now) order (work compilation.now) }
{
    let found = compilation.output.names.look(name.bytes());
    let again = again_by(name, standing_fault(found));
    Declared {
        found,
        finding: again_finding(order, &again),
    }
}

fn declared_findings(name: &Name, kind: FixedLimit, declared: Declared) -> Findings
    ensures { found_as result ≡ declared_findings (as_name name.now) kind declared }
{
    Findings {
        least: declared.finding,
        many: kind,
        again: again_by(name, standing_fault(declared.found)),
    }
}

/// Ends the header of a declaration, or a whole one, of `name` and `kind`, which begins at `first`. The error that
/// `declared` shows is told.
pub fn end_declared<B: Bounds>(
    compilation: &mut Compilation<B>,
    context: &Context<'_>,
    first: Place,
    has_last: bool,
    name: &Name,
    kind: FixedLimit,
    declared: Declared,
) -> Result<(), AllocError>
    ensures { OnOk result (work compilation.new
        ≡ declared_ended B.most (handed context.now) first has_last (as_name name.now) kind declared (work compilation.old)) }
{
    let found = declared_findings(name, kind, declared);
    compilation.end_unit(context, first, has_last, &found)
}

/// Ends a declaration of `name` and `kind`, which begins at `first`. The error that `declared` shows is told.
pub fn end_declaration<B: Bounds>(
    compilation: &mut Compilation<B>,
    context: &Context<'_>,
    first: Place,
    name: &Name,
    kind: FixedLimit,
    declared: Declared,
) -> Result<(), AllocError>
    ensures { OnOk result (work compilation.new
        ≡ declaration_ended B.most (handed context.now) first (as_name name.now) kind declared (work compilation.old)) }
{
    end_declared(compilation, context, first, true, name, kind, declared)
}

/// Looks for `name`, which is declared by a token of `order`. The finding is the error of the declaration beside its expression, where
/// there are as many of its kind as there may be if `are_many`.
pub fn name_known<B: Bounds>(
    compilation: &Compilation<B>,
    name: &Name,
    order: u32,
    are_many: bool,
) -> Declared
    ensures { result ≡ name_known (as_name name.now) order are_many (work compilation.now) }
{
    let found = compilation.output.names.look(name.bytes());
    let again = again_by(name, standing_fault(found));
    let leaves = compilation.unit.gathering.leaves();
    let is_late = is_late(
        found,
        names_itself(&compilation.unit.tokens, name.bytes(), leaves),
    );
    Declared {
        found,
        finding: declared_finding(order, &again, is_late, are_many),
    }
}

/// Looks for `name`, which is declared by a token of `order`. The finding is the error of the declaration or of its expression, where there
/// are as many of its kind as there may be if `are_many`.
pub fn valued<B: Bounds>(
    compilation: &Compilation<B>,
    name: &Name,
    order: u32,
    are_many: bool,
) -> Result<Declared, AllocError>
    ensures { IfOk result (λ d. d ≡ valued (as_name name.now) order are_many (work compilation.now)) }
{
    let operands = compilation.operands()?;
    let finding = compilation.finding(0, Wanted::Constant, operands.as_slice())?;
    let declared = name_known(compilation, name, order, are_many);
    Ok(Declared {
        found: declared.found,
        finding: least_of_both(declared.finding, finding),
    })
}

fn last_meaning<B: Bounds>(compilation: &Compilation<B>, kind: FixedLimit) -> Option<Meaning>
    ensures { result ≡ last_meaning kind (work compilation.now) }
{
    let tokens = &compilation.unit.tokens;
    let other = tokens.bytes_at(tokens.len().saturating_sub(1));
    alias_meaning(kind, compilation.output.names.look(other))
}

/// Declares a name as another one for the meaning of the last name of the unit.
pub fn alias<B: Bounds>(
    compilation: &mut Compilation<B>,
    context: &Context<'_>,
    first: Place,
    name: &Name,
    order: u32,
    kind: FixedLimit,
) -> Result<(), AllocError>
    ensures { OnOk result (work compilation.new ≡ alias_told B.most (handed context.now) first (as_name name.now) order kind
        (work compilation.old)) }
{
    let meaning = last_meaning(compilation, kind);
    let own = name_known(compilation, name, order, false);
    let finding = least_of_both(
        own.finding,
        alias_finding(&compilation.unit.tokens, meaning),
    );
    let stands = aliased(kind, meaning, finding);
    declare(name, stands, &mut compilation.output)?;
    let declared = Declared {
        found: own.found,
        finding,
    };
    end_declaration(compilation, context, first, name, kind, declared)
}

//! The headers of classes and objects.
ghost use Rattle.inf_compilation.specs.{Context.handed, Works.work};
ghost use Rattle.std.specs.Prelude.{OnOk, option_map, ◌≡◌};
ghost use Rattle.inf_names.specs.Spellings.{as_name};
ghost use Rattle.inf_bodies.specs.Objects.{above_finding, class_header, class_of, class_of_word, class_opened, class_with, entry_told};
ghost use Rattle.inf_bodies.specs.Objects.{found_at, has_most_classes, headed_finding, header_in, hung_finding, named_known};
ghost use Rattle.inf_bodies.specs.Objects.{named_parent_finding, object_ended, object_header, object_in, object_known, object_new};
ghost use Rattle.inf_bodies.specs.Objects.{object_of, object_opened, object_with, own_name, parent_finding, parent_fit, parent_in};
ghost use Rattle.inf_bodies.specs.Objects.{refused_finding, word_place};
ghost use Rattle.inf_unit.specs.Units.{name_at};

use crate::effects::{begin_class, begin_object, lose_class, lose_object};
use crate::headers::{Header, header_in, word_place};
use crate::short_names::{bracketed, pack_name, short_text};
use inf_compilation::compilation::Compilation;
use inf_compilation::context::Context;
use inf_compilation::findings::many_finding;
use inf_expressions::{Finding, UnitError, least_of_both};
use inf_lexer::Place;
use inf_named_values::declarations::{Declared, end_declared, plainly_known};
use inf_names::meanings::Meaning;
use inf_names::spellings::Name;
use inf_names::symbols::Found;
use inf_output::Output;
use inf_report::messages::FixedLimit;
use inf_settings::bounds::Bounds;
use inf_tables::{Misfit, Parent, WorldFault};
use inf_unit::unit::order;
use std::alloc::AllocError;

/// The greatest number of an object's classes: their list is a property like any other (Z-Machine Standard 1.1, section 12.4.2.1).
const MOST_CLASSES: usize = 32;

pub(crate) fn refused_finding(fault: Option<WorldFault>, name: u32) -> Option<Finding>
    ensures { result ≡ refused_finding fault name }
{
    match fault? {
        WorldFault::Limit(_) => Some(Finding {
            order: 0,
            error: UnitError::TooMany,
        }),
        WorldFault::Misfit(_) => Some(Finding::wrong_kind(name)),
        WorldFault::Full(_) | WorldFault::Memory => None,
    }
}

/// Returns the number of the object that a name with `meaning` stands for, or `None`.
fn object_in(meaning: Meaning) -> Option<usize>
    ensures { result ≡ object_in meaning }
{
    match meaning {
        Meaning::Object(number) => Some(usize::from(number)),
        _ => None,
    }
}

/// Returns the number of the object that a name stands for, by `found`, the answer of its look-up, or `None`.
fn object_of(found: Found<Place>) -> Option<usize>
    ensures { result ≡ object_of found }
{
    match found {
        Found::System(meaning) | Found::Declared(meaning, _) => object_in(meaning),
        Found::Used | Found::Unknown => None,
    }
}

/// Returns the number of the class of the source that a name stands for, by the answer of its look-up, or `None`.
pub(crate) fn class_of(found: Found<Place>) -> Option<usize>
    ensures { result ≡ class_of found }
{
    match found {
        Found::Declared(Meaning::Class(number), _) => Some(usize::from(number)),
        _ => None,
    }
}

// The header of an object

fn hung_finding(hung: Result<usize, Misfit>, at: usize) -> Option<Finding>
    ensures { result ≡ hung_finding hung at }
{
    match hung {
        Ok(_) => None,
        Err(_) => Some(Finding::wrong_kind(order(at))),
    }
}

fn parent_fit(number: Option<usize>, arrow: Option<usize>, at: usize) -> Option<Finding>
    ensures { result ≡ parent_fit number arrow at }
{
    match (number, arrow) {
        (Some(_), None) => None,
        _ => Some(Finding::wrong_kind(order(at))),
    }
}

// Units of classes and objects

/// Looks for the name at `at` of the unit.
pub(crate) fn found_at<B: Bounds>(compilation: &Compilation<B>, at: usize) -> Found<Place>
    ensures { result ≡ found_at at (work compilation.now) }
{
    compilation
        .output
        .names
        .look(compilation.unit.tokens.bytes_at(at))
}

/// Ends a unit of an object or a class that begins at `first`, with the finding `found` about it.
pub(crate) fn tell_entry<B: Bounds>(
    compilation: &mut Compilation<B>,
    context: &Context<'_>,
    first: Place,
    found: Option<Finding>,
) -> Result<(), AllocError>
    ensures { OnOk result (work compilation.new ≡ entry_told B.most (handed context.now) first found (work compilation.old)) }
{
    compilation.end_alone(context, first, false, found)
}

// Functions for classes

/// Ends the header of a class with `name`, which begins at `first`.
pub fn class_header<B: Bounds>(
    compilation: &mut Compilation<B>,
    context: &Context<'_>,
    first: Place,
    name: &Name,
) -> Result<(), AllocError>
    ensures { OnOk result (work compilation.new ≡ class_header B.most (handed context.now) first (as_name name.now)
        (work compilation.old)) }
{
    let order = compilation.unit.tokens.name_order();
    let declared = plainly_known(compilation, name, order);
    class_with(compilation, context, first, name, declared)
}

/// Ends the header of a class with `name`, which begins at `first`; `declared` is the declaration as far as it is known.
fn class_with<B: Bounds>(
    compilation: &mut Compilation<B>,
    context: &Context<'_>,
    first: Place,
    name: &Name,
    declared: Declared,
) -> Result<(), AllocError>
    ensures { OnOk result (work compilation.new
        ≡ class_with B.most (handed context.now) first (as_name name.now) declared (work compilation.old)) }
{
    open_class(compilation, context, name, declared.finding)?;
    end_declared(
        compilation,
        context,
        first,
        false,
        name,
        FixedLimit::Globals,
        declared,
    )
}

/// Opens a class of this name, or, where something is wrong with its header, a body that belongs to nothing.
fn open_class<B: Bounds>(
    compilation: &mut Compilation<B>,
    context: &Context<'_>,
    name: &Name,
    found: Option<Finding>,
) -> Result<(), AllocError>
    ensures { OnOk result (work compilation.new ≡ class_opened B.most (handed context.now) found (as_name name.now)
        (work compilation.old)) }
{
    match found {
        Some(_) => lose_class(name, &mut compilation.output),
        None => {
            let text = bracketed(compilation.alloc, context.set, name.bytes())?;
            let short = pack_name(compilation.alloc, text, &mut compilation.output)?;
            begin_class(name, short, &mut compilation.output)
        }
    }
}

// Functions for objects

fn class_of_word<B: Bounds>(compilation: &Compilation<B>) -> Option<usize>
    ensures { result ≡ class_of_word (work compilation.now) }
{
    class_of(found_at(compilation, word_place(&compilation.unit.tokens)))
}

/// Returns whether a class has as many classes as an object may have. With that class an object that it heads has one more.
fn has_most_classes<B: Bounds>(class: Option<usize>, out: &Output<B>) -> bool
    ensures { result ≡ has_most_classes class out.now }
{
    match class {
        Some(number) => out.tables.world.class_count(number) >= MOST_CLASSES,
        None => false,
    }
}

/// Returns the finding about the arrows of `header`, where no object is above them.
fn above_finding<B: Bounds>(compilation: &Compilation<B>, header: Header) -> Option<Finding>
    ensures { result ≡ above_finding header.arrow header.arrows (work compilation.now) }
{
    let world = &compilation.output.tables.world;
    match header.arrow {
        Some(at) => hung_finding(world.parent_number(Parent::Arrows(header.arrows)), at),
        None => None,
    }
}

/// Returns the finding about the parent that `header` names.
fn named_parent_finding<B: Bounds>(compilation: &Compilation<B>, header: Header) -> Option<Finding>
    ensures { result ≡ named_parent_finding header.parent header.arrow (work compilation.now) }
{
    match header.parent {
        Some(at) => parent_fit(object_of(found_at(compilation, at)), header.arrow, at),
        None => None,
    }
}

/// Returns the finding about the place in the tree where `header` puts its object.
fn parent_finding<B: Bounds>(compilation: &Compilation<B>, header: Header) -> Option<Finding>
    ensures { result ≡ parent_finding header (work compilation.now) }
{
    least_of_both(
        above_finding(compilation, header),
        named_parent_finding(compilation, header),
    )
}

fn headed_finding<B: Bounds>(compilation: &Compilation<B>, header: Header) -> Option<Finding>
    ensures { result ≡ headed_finding header (work compilation.now) }
{
    let class = class_of_word(compilation);
    least_of_both(
        many_finding(has_most_classes(class, &compilation.output)),
        parent_finding(compilation, header),
    )
}

/// Returns the parent that a header gives.
fn parent<B: Bounds>(compilation: &Compilation<B>, header: Header) -> Parent
    ensures { result ≡ parent_in header.parent header.arrows (work compilation.now) }
{
    match header.parent {
        Some(at) => Parent::Object(object_of(found_at(compilation, at)).unwrap_or(0)),
        None => Parent::Arrows(header.arrows),
    }
}

/// Returns the name at a place of the unit.
pub(crate) fn name_at<B: Bounds>(compilation: &Compilation<B>, at: usize) -> Option<Name>
    ensures { option_map as_name result ≡ name_at (work compilation.now).unit.tokens at }
{
    match compilation.unit.tokens.name_at(at) {
        Some(token) => Some(Name::new(token.bytes, token.place)),
        None => None,
    }
}

/// Returns the name that a header gives its object.
fn own_name<B: Bounds>(compilation: &Compilation<B>, header: Header) -> Option<Name>
    ensures { option_map as_name result ≡ own_name header.own (work compilation.now) }
{
    match header.own {
        Some(at) => name_at(compilation, at),
        None => None,
    }
}

/// Looks for `name` at `at`, that of an object with `header`, and returns the declaration as far as it is known.
fn named_known<B: Bounds>(
    compilation: &Compilation<B>,
    context: &Context<'_>,
    header: Header,
    at: usize,
    name: &Name,
) -> Declared
    ensures { result ≡ named_known (handed context.now) header at (as_name name.now) (work compilation.now) }
{
    let declared = plainly_known(compilation, name, order(at));
    Declared {
        found: declared.found,
        finding: least_of_both(declared.finding, headed_finding(compilation, header)),
    }
}

/// Looks for the name of an object with `header`, if it has a `name`, and returns the declaration as far as it is known.
fn object_known<B: Bounds>(
    compilation: &Compilation<B>,
    context: &Context<'_>,
    header: Header,
    name: &Option<Name>,
) -> Declared
    ensures { result ≡ object_known (handed context.now) header (option_map as_name name.now) (work compilation.now) }
{
    match name {
        Some(name) => named_known(compilation, context, header, header.own.unwrap_or(0), name),
        None => Declared {
            found: Found::Unknown,
            finding: headed_finding(compilation, header),
        },
    }
}

/// Opens an object, or, where something is wrong with its header, a body that belongs to nothing.
fn open_object<B: Bounds>(
    compilation: &mut Compilation<B>,
    context: &Context<'_>,
    header: Header,
    name: &Option<Name>,
    found: Option<Finding>,
) -> Result<(), AllocError>
    ensures { OnOk result (work compilation.new ≡ object_opened B.most (handed context.now) found header (option_map as_name name.now)
        (work compilation.old)) }
{
    match found {
        Some(_) => lose_object(name, &mut compilation.output),
        None => new_object(compilation, context, header, name),
    }
}

/// Opens an object with a header in which nothing is wrong.
fn new_object<B: Bounds>(
    compilation: &mut Compilation<B>,
    context: &Context<'_>,
    header: Header,
    name: &Option<Name>,
) -> Result<(), AllocError>
    ensures { OnOk result (work compilation.new ≡ object_new B.most (handed context.now) header (option_map as_name name.now)
        (work compilation.old)) }
{
    let text = short_text(compilation, context, header, name)?;
    let class = class_of_word(compilation);
    let parent = parent(compilation, header);
    let short = pack_name(compilation.alloc, text, &mut compilation.output)?;
    begin_object(parent, short, class, name, &mut compilation.output)
}

/// Ends the header of an object that begins at `first`, and shows the finding about it.
fn end_object<B: Bounds>(
    compilation: &mut Compilation<B>,
    context: &Context<'_>,
    first: Place,
    name: &Option<Name>,
    declared: Declared,
) -> Result<(), AllocError>
    ensures { OnOk result (work compilation.new
        ≡ object_ended B.most (handed context.now) first (option_map as_name name.now) declared (work compilation.old)) }
{
    match name {
        Some(name) => {
            end_declared(
                compilation,
                context,
                first,
                false,
                name,
                FixedLimit::Values,
                declared,
            )
        }
        None => tell_entry(compilation, context, first, declared.finding),
    }
}

/// Opens the object of `header`, and ends its header, which begins at `first`.
fn object_with<B: Bounds>(
    compilation: &mut Compilation<B>,
    context: &Context<'_>,
    first: Place,
    header: Header,
    name: &Option<Name>,
) -> Result<(), AllocError>
    ensures { OnOk result (work compilation.new
        ≡ object_with B.most (handed context.now) first header (option_map as_name name.now) (work compilation.old)) }
{
    let declared = object_known(compilation, context, header, name);
    open_object(compilation, context, header, name, declared.finding)?;
    end_object(compilation, context, first, name, declared)
}

/// Ends the header of an object, which begins at `first` and may be one of a class that its word names.
pub fn object_header<B: Bounds>(
    compilation: &mut Compilation<B>,
    context: &Context<'_>,
    first: Place,
) -> Result<(), AllocError>
    ensures { OnOk result (work compilation.new ≡ object_header B.most (handed context.now) first (work compilation.old)) }
{
    let header = header_in(&compilation.unit.tokens);
    let name = own_name(compilation, header);
    object_with(compilation, context, first, header, &name)
}

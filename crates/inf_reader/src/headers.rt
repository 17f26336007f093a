//! The headers of directives that have entries, bodies, lines or texts: the word of each decides which it is.
ghost use Rattle.inf_compilation.specs.{Context.handed, Works.work};
ghost use Rattle.std.specs.Prelude.{OnOk, false, map, ◌≡◌};
ghost use Rattle.inf_names.specs.Spellings.{as_name};
ghost use Rattle.inf_reader.specs.Headers.{class_named, header_as, header_ended, directive_header, heading_of};
ghost use Rattle.inf_declarations.specs.Arrays.{array_named};

use crate::directives::tell_limits;
use inf_bodies::objects::{class_header, object_header};
use inf_compilation::compilation::Compilation;
use inf_compilation::context::Context;
use inf_declarations::arrays::array_named;
use inf_directives::abbreviations::abbreviate_header;
use inf_lexer::Place;
use inf_names::spellings::Name;
use inf_settings::bounds::Bounds;
use inf_syntax::Keyword;
use inf_verb_lines::verbs::{extend_header, verb_header};
use std::alloc::AllocError;

/// A declaration by a directive with a header.
#[derive(Clone, Copy)]
pub enum Heading {
    Array,
    Class,
    Object,
    Verb,
    Extend,
    Abbreviate,
}

fn heading_of(word: Option<Keyword>) -> Heading
    ensures { result ≡ heading_of word }
{
    match word {
        Some(Keyword::Array) => Heading::Array,
        Some(Keyword::Class) => Heading::Class,
        Some(Keyword::Verb) => Heading::Verb,
        Some(Keyword::Extend) => Heading::Extend,
        Some(Keyword::Abbreviate) => Heading::Abbreviate,
        _ => Heading::Object,
    }
}

/// Ends the header of a directive with entries, before a token at `place`. Code begins with it, unless it has begun,
/// and behind it the first setting that was passed is told.
pub(crate) fn end_directive_header<B: Bounds>(
    compilation: &mut Compilation<B>,
    context: &Context<'_>,
    place: Place,
) -> Result<(), AllocError>
    ensures { OnOk result (work compilation.new ≡ header_ended B.most (handed context.now) place (work compilation.old)) }
{
    let names = compilation.unit.tokens.names(compilation.alloc)?;
    let first = compilation.unit.first_place(place);
    compilation.output.begin();
    directive_header(compilation, context, first, names.as_slice())?;
    tell_limits(compilation, context, first)
}

/// Ends the header of a directive that begins at `first` and has `names`, the first of which is its word.
fn directive_header<B: Bounds>(
    compilation: &mut Compilation<B>,
    context: &Context<'_>,
    first: Place,
    names: &[Name],
) -> Result<(), AllocError>
    ensures { OnOk result (work compilation.new ≡ directive_header B.most (handed context.now) first (map as_name names.now)
        (work compilation.old)) }
{
    match names.split_first() {
        Some((_, names)) => {
            let heading = heading_of(compilation.unit.tokens.directive_word());
            header_as(compilation, heading, context, first, names)
        }
        None => {
            compilation.pass(false);
            Ok(())
        }
    }
}

/// Ends the header of a directive that declares `heading`, begins at `first` and has `names` behind its word.
fn header_as<B: Bounds>(
    compilation: &mut Compilation<B>,
    heading: Heading,
    context: &Context<'_>,
    first: Place,
    names: &[Name],
) -> Result<(), AllocError>
    ensures { OnOk result (work compilation.new
        ≡ header_as B.most heading (handed context.now) first (map as_name names.now) (work compilation.old)) }
{
    match heading {
        Heading::Array => array_named(compilation, context, first, names),
        Heading::Class => class_named(compilation, context, first, names),
        Heading::Object => object_header(compilation, context, first),
        Heading::Verb => verb_header(compilation, context, first),
        Heading::Extend => extend_header(compilation, context, first),
        Heading::Abbreviate => abbreviate_header(compilation, context, first),
    }
}

/// Opens a class of the first of these names.
fn class_named<B: Bounds>(
    compilation: &mut Compilation<B>,
    context: &Context<'_>,
    first: Place,
    names: &[Name],
) -> Result<(), AllocError>
    ensures { OnOk result (work compilation.new ≡ class_named B.most (handed context.now) first (map as_name names.now)
        (work compilation.old)) }
{
    match names.first() {
        Some(name) => class_header(compilation, context, first, name),
        None => {
            compilation.pass(false);
            Ok(())
        }
    }
}

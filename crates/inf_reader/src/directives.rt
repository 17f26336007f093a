//! The directives that are one unit: the word of each decides which it is.
ghost use Rattle.inf_compilation.specs.{Actions.constant, Actions.replace, Actions.stub, Context.handed, Works.work};
ghost use Rattle.std.specs.Prelude.{OnOk, map, ◌≡◌};
ghost use Rattle.inf_names.specs.Spellings.{as_name};
ghost use Rattle.inf_unit.specs.Directives.{Include, asked};
ghost use Rattle.inf_reader.specs.Directives.{carried_out, code_begun_by, directive_end, directive_of_names, limits_told};
ghost use Rattle.inf_directives.specs.Defaults.{default};

use inf_compilation::compilation::Compilation;
use inf_compilation::context::Context;
use inf_compilation::findings::Findings;
use inf_declarations::attributes::attribute;
use inf_declarations::globals::global_variable;
use inf_declarations::properties::property;
use inf_directives::abbreviations::low_string;
use inf_directives::directives::{constant, default, inclusion, message, replace, stub};
use inf_directives::headers::{release, serial};
use inf_directives::switches::switches;
use inf_lexer::Place;
use inf_names::spellings::Name;
use inf_settings::bounds::Bounds;
use inf_unit::directives::{Directive, Request, directive_of};
use inf_verb_lines::verbs::fake_action;
use std::alloc::AllocError;

/// Ends a directive, before a token at `place`. Code begins with it, unless it has begun or the directive is `Switches`, and
/// behind it the first setting that was passed is told.
pub(crate) fn end_directive<B: Bounds>(
    compilation: &mut Compilation<B>,
    context: &Context<'_>,
    place: Place,
) -> Result<(), AllocError>
    ensures { OnOk result (work compilation.new ≡ directive_end B.most (handed context.now) place (work compilation.old)) }
{
    let names = compilation.unit.tokens.names(compilation.alloc)?;
    let first = compilation.unit.first_place(place);
    directive_of_names(compilation, context, first, names.as_slice())?;
    tell_limits(compilation, context, first)
}

/// Ends the compilation by a fatal error at `first`, where a directive begins, if a setting was passed.
pub(crate) fn tell_limits<B: Bounds>(
    compilation: &mut Compilation<B>,
    context: &Context<'_>,
    first: Place,
) -> Result<(), AllocError>
    ensures { OnOk result (work compilation.new ≡ limits_told B.most (handed context.now) first (work compilation.old)) }
{
    let full = compilation.output.full();
    compilation.report.full(context.files, first, full)
}

/// Carries out a directive that begins at `first` and has `names`, the first of which is its word.
fn directive_of_names<B: Bounds>(
    compilation: &mut Compilation<B>,
    context: &Context<'_>,
    first: Place,
    names: &[Name],
) -> Result<(), AllocError>
    ensures { OnOk result (work compilation.new ≡ directive_of_names B.most (handed context.now) first (map as_name names.now)
        (work compilation.old)) }
{
    match names.split_first() {
        Some((_, names)) => {
            let directive = directive_of(compilation.unit.tokens.directive_word());
            begin_code(compilation, directive);
            carry_out(compilation, directive, context, first, names)
        }
        None => {
            compilation.pass(true);
            Ok(())
        }
    }
}

/// Begins code with a directive, unless it has begun. `Switches`, whose letters say how code is laid, does not begin it.
fn begin_code<B: Bounds>(compilation: &mut Compilation<B>, directive: Directive)
    ensures { work compilation.new ≡ code_begun_by B.most directive (work compilation.old) }
{
    match directive {
        Directive::Switches => {}
        _ => compilation.output.begin(),
    }
}

/// Carries out a directive that begins at a place, with these names behind its word.
fn carry_out<B: Bounds>(
    compilation: &mut Compilation<B>,
    directive: Directive,
    context: &Context<'_>,
    first: Place,
    names: &[Name],
) -> Result<(), AllocError>
    ensures { OnOk result (work compilation.new
        ≡ carried_out B.most directive (handed context.now) first (map as_name names.now) (work compilation.old)) }
{
    match directive {
        Directive::Include => compilation.asked = inclusion(compilation, first)?,
        Directive::Message => message(compilation, context, first, names)?,
        Directive::End => compilation.asked = Request::End,
        Directive::Constant => return constant(compilation, context, first, names),
        Directive::Replace => return replace(compilation, context, first, names),
        Directive::Stub => return stub(compilation, context, first, names),
        Directive::Default => return default(compilation, context, first, names),
        Directive::Attribute => return attribute(compilation, context, first, names),
        Directive::Property => return property(compilation, context, first, names),
        Directive::Global => return global_variable(compilation, context, first, names),
        Directive::FakeAction => return fake_action(compilation, context, first, names),
        Directive::Switches => return switches(compilation, context, first, names),
        Directive::Lowstring => return low_string(compilation, context, first, names),
        Directive::Release => return release(compilation, context, first),
        Directive::Serial => return serial(compilation, context, first),
        Directive::SystemFile => compilation.is_system = true,
    }
    compilation.end_unit(context, first, true, &Findings::none())
}

//! The directive `Switches`.
ghost use Rattle.std.specs.Prelude.{OnOk, map, ◌≡◌};
ghost use Rattle.inf_names.specs.Spellings.{as_name};
ghost use Rattle.inf_compilation.specs.{Context.handed, Works.work};
ghost use Rattle.inf_directives.specs.Switches.{has_code, letters_behind, misplaced, switched, switches, switches_by};

use inf_compilation::compilation::Compilation;
use inf_compilation::context::Context;
use inf_compilation::findings::Findings;
use inf_expressions::{Finding, UnitError};
use inf_letters::Letters;
use inf_lexer::Place;
use inf_names::spellings::Name;
use inf_settings::bounds::Bounds;
use inf_unit::directives::Request;
use std::alloc::AllocError;

/// Chooses by the letters of the first of `names`, behind those that came before, unless these have the directive ignored.
///
/// Letters behind the beginning of code, and a letter that is unknown, are errors, told at the place `first` where the directive begins;
/// then nothing changes. Else all sources are read by the character set of the letters, which is asked of the reading.
pub fn switches<B: Bounds>(
    compilation: &mut Compilation<B>,
    context: &Context<'_>,
    first: Place,
    names: &[Name],
) -> Result<(), AllocError>
    ensures { OnOk result (work compilation.new
        ≡ switches B.most (handed context.now) first (map as_name names.now) (work compilation.old)) }
{
    let Some(name) = names.first() else {
        compilation.pass(true);
        return Ok(());
    };
    if compilation.letters.ignores() {
        return compilation.end_unit(context, first, true, &Findings::none());
    }
    let letters = letters_behind(compilation, name.bytes());
    switch(compilation, context, first, letters)
}

fn letters_behind<B: Bounds>(compilation: &Compilation<B>, more: &[u8]) -> Option<Letters>
    ensures { let before = work compilation.now in result ≡ letters_behind (has_code before.output.code) more.now before.letters }
{
    if compilation.output.code.routines() > 0 {
        return None;
    }
    compilation.letters.and(more)
}

/// Ends the directive, which begins at `first`, with the choices that hold from now on, or an error where there are none.
fn switch<B: Bounds>(
    compilation: &mut Compilation<B>,
    context: &Context<'_>,
    first: Place,
    letters: Option<Letters>,
) -> Result<(), AllocError>
    ensures { OnOk result (work compilation.new ≡ switches_by B.most (handed context.now) first letters (work compilation.old)) }
{
    let Some(letters) = letters else {
        let found = Findings::alone(Some(misplaced()));
        return compilation.end_unit(context, first, true, &found);
    };
    choose(compilation, letters);
    compilation.end_unit(context, first, true, &Findings::none())
}

/// Makes `letters` the choices from now on, and asks the reading for their character set.
fn choose<B: Bounds>(compilation: &mut Compilation<B>, letters: Letters)
    ensures { work compilation.new ≡ switched letters (work compilation.old) }
{
    compilation.choose(letters);
    compilation.asked = Request::Characters(letters.set());
}

/// Returns the finding that `Switches` comes too late, or has letters that are unknown.
fn misplaced() -> Finding
    ensures { result ≡ misplaced }
{
    Finding {
        order: 0,
        error: UnitError::MisplacedSwitches,
    }
}

//! The names of a source, and the routine with which its story begins.
ghost use Rattle.std.specs.Prelude.{◌≡◌, OnOk};
ghost use Rattle.inf_settings.specs.Bounds.{AreSet};
ghost use Rattle.inf_unit.specs.Names.{main_of, no_symbols, routine_of, with_all_undeclared};

use crate::messages::{Diagnostics, location};
use inf_lexer::{Place, Stack};
use inf_names::hashing::NameHashing;
use inf_names::meanings::Meaning;
use inf_names::symbols::{Found, Symbols};
use inf_report::messages::Message;
use inf_settings::bounds::Bounds;
use inf_settings::setting::Setting;
use inf_settings::settings::Settings;
use std::alloc::{AllocError, Global};

/// Makes an empty table of names, which may hold as many as `settings` say. Memory is taken only when the first name comes.
pub fn no_symbols<B: Bounds>(
    alloc: Global,
    settings: &Settings,
    hashing: NameHashing,
) -> Symbols<Place, B>
    requires { AreSet B.most settings.now }
    ensures { result ≡ no_symbols }
{
    Symbols::new(alloc, settings.bound::<B>(Setting::Symbols), false, hashing)
}

/// Returns the place of the routine among `names` with which a story begins, in bytes from the front of the code.
pub fn main_of<B: Bounds>(names: &Symbols<Place, B>) -> Option<usize>
    ensures { result ≡ main_of names.now }
{
    match names.look(b"main") {
        Found::Declared(meaning, _) => routine_of(meaning),
        Found::System(_) | Found::Used | Found::Unknown => None,
    }
}

/// Returns the place of a routine, in bytes from the front of the code; `None` for any other `meaning`.
fn routine_of(meaning: Meaning) -> Option<usize>
    ensures { result ≡ routine_of meaning }
{
    match meaning {
        Meaning::Routine(place) => Some(place),
        _ => None,
    }
}

/// Tells each name that was used and never declared, where it was first used.
pub fn tell_undeclared<B: Bounds>(
    names: &Symbols<Place, B>,
    files: &Stack,
    messages: &mut Diagnostics,
) -> Result<(), AllocError>
    ensures { OnOk result (messages.new ≡ with_all_undeclared files.now.names names.now.names messages.old) }
{
    for number in 0..names.len() {
        if let Some((spelling, place)) = names.use_at(number) {
            let at = location(files, place);
            messages.error(at, at, &Message::Undeclared(spelling))?;
        }
    }
    Ok(())
}

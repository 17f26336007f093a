//! The short names of objects and classes.
ghost use Rattle.inf_compilation.specs.{Context.handed, Works.work};
ghost use Rattle.std.specs.Prelude.{IfOk, OnOk, option_map, ◌≡◌};
ghost use Rattle.inf_characters.specs.Reading.{text_of as read_in};
ghost use Rattle.inf_names.specs.Spellings.{as_name};
ghost use Rattle.inf_unit.specs.Texts.{fit_characters};
ghost use Rattle.inf_bodies.specs.ShortNames.{bracketed, header_text, in_brackets, name_packed, packed_name, short_text, shown_name};

use crate::headers::Header;
use inf_compilation::compilation::Compilation;
use inf_compilation::context::Context;
use inf_named_values::values::text_at;
use inf_names::spellings::Name;
use inf_output::Output;
use inf_settings::bounds::Bounds;
use inf_tables::ShortName;
use inf_text::{CharSet, Mode, Text, TextFault, read_text};
use std::alloc::{AllocError, Global};

/// Returns the characters of bytes in a character set, or `None` where they have a fault.
pub(crate) fn text_in(
    alloc: Global,
    set: CharSet,
    mode: Mode,
    bytes: &[u8],
) -> Result<Option<Text>, AllocError>
    ensures { IfOk result (λ text. text ≡ fit_characters (read_in set mode bytes.now)) }
{
    match read_text(alloc, bytes, set, mode) {
        Ok(text) => Ok(Some(text)),
        Err(TextFault::Memory) => Err(AllocError),
        Err(TextFault::UnknownEscape | TextFault::NoZscii | TextFault::BadCode) => Ok(None),
    }
}

/// Makes a short name of these characters, which is packed as the texts of the story are; an empty one where there are none.
pub(crate) fn pack_name<B: Bounds>(
    alloc: Global,
    text: Option<Text>,
    out: &mut Output<B>,
) -> Result<ShortName, AllocError>
    ensures name { IfOk result (λ short. short ≡ packed_name text out.old.texts) }
    ensures packed { OnOk result (out.new ≡ name_packed text out.old) }
{
    match text {
        Some(text) => Ok(ShortName::new(out.texts.pack(alloc, &text)?)),
        None => Ok(ShortName::empty(alloc)),
    }
}

/// Returns a name in round brackets.
fn in_brackets(alloc: Global, name: &[u8]) -> Result<Vec<u8>, AllocError>
    ensures { IfOk result (λ bytes. bytes.items ≡ in_brackets name.now) }
{
    let mut bytes = Vec::new(alloc);
    bytes.push(b'(')?;
    bytes.extend_from_slice(name)?;
    bytes.push(b')')?;
    Ok(bytes)
}

/// Returns the characters of the short name of an object or a class without a text for it: its name, in round brackets.
pub(crate) fn bracketed(
    alloc: Global,
    set: CharSet,
    name: &[u8],
) -> Result<Option<Text>, AllocError>
    ensures { IfOk result (λ text. text ≡ bracketed set name.now) }
{
    let bytes = in_brackets(alloc, name)?;
    text_in(alloc, set, Mode::Text, bytes.as_slice())
}

/// Returns the short name of an object that has no text for it: its `name`, or a question mark.
fn shown_name(name: &Option<Name>) -> &[u8]
    ensures { result.now ≡ shown_name (option_map as_name name.now) }
{
    match name {
        Some(name) => name.bytes(),
        None => b"?",
    }
}

/// Returns the characters of the text of a header.
fn header_text<B: Bounds>(
    compilation: &Compilation<B>,
    context: &Context<'_>,
    header: Header,
) -> Result<Option<Text>, AllocError>
    ensures { IfOk result (λ text. text ≡ header_text (handed context.now) header.text (work compilation.now)) }
{
    match header.text {
        Some(at) => text_at(compilation, context, at),
        None => Ok(None),
    }
}

/// Returns the characters of the short name of an object: its text, or its name in round brackets.
pub(crate) fn short_text<B: Bounds>(
    compilation: &Compilation<B>,
    context: &Context<'_>,
    header: Header,
    name: &Option<Name>,
) -> Result<Option<Text>, AllocError>
    ensures { IfOk result (λ text. text ≡ short_text (handed context.now) header (option_map as_name name.now) (work compilation.now)) }
{
    match header_text(compilation, context, header)? {
        Some(text) => Ok(Some(text)),
        None => bracketed(compilation.alloc, context.set, shown_name(name)),
    }
}

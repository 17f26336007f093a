//! The names of files that the text of an inclusion may mean.
ghost use Rattle.std.specs.Prelude.{option_copied, string_bytes, ◌≡◌, IfOk, false, if◌then◌else◌};
ghost use Rattle.inf_lexer.specs.Names.{behind_sign, directory_of, has_dot, has_sign, is_fit, name_beside, name_in, placed};

use std::alloc::{AllocError, Global};

/// Returns whether `text` has the sign `>` at its front, and the name behind the sign.
pub(crate) fn without_sign(text: &[u8]) -> (bool, &[u8])
    ensures sign { result.0 ≡ has_sign text.now }
    ensures name { result.1.now ≡ behind_sign text.now }
{
    match text {
        [b'>', name @ ..] => (true, name),
        _ => (false, text),
    }
}

/// Returns a file's name as text; `None` where it is empty or has a byte over 127.
pub(crate) fn fit_name(name: &[u8]) -> Option<&str>
    ensures { option_copied result ≡ (if is_fit name.now then Some name.now else None) }
{
    if name.is_empty() || !name.is_ascii() {
        return None;
    }
    match str::from_utf8(name) {
        Ok(name) => Some(name),
        Err(_) => None,
    }
}

/// Returns whether the last part of a name has a `.`.
fn has_extension(name: &[u8]) -> bool
    ensures { result ≡ has_dot false name.now }
{
    let mut dot = false;
    for byte in name {
        dot = *byte == b'.' || (dot && *byte != b'/');
    }
    dot
}

/// Appends the file `file` to the name of its directory, with `.h` where it has no extension.
fn push_file(name: &mut String, file: &str) -> Result<(), AllocError>
    ensures { IfOk result (λ _. string_bytes name.new ≡ placed (string_bytes name.old) file.now) }
{
    name.push_str(file)?;
    if !has_extension(file.as_bytes()) {
        name.push_str(".h")?;
    }
    Ok(())
}

/// Returns the name of `file` in `directory`, or `file` by itself where `directory` is empty, with `.h` where it has no extension.
pub(crate) fn name_in(alloc: Global, directory: &str, file: &str) -> Result<String, AllocError>
    ensures { IfOk result (λ name. string_bytes name ≡ name_in directory.now file.now) }
{
    let mut name = String::from_str(alloc, directory)?;
    if !directory.is_empty() {
        name.push_str("/")?;
    }
    push_file(&mut name, file)?;
    Ok(name)
}

/// Returns the name of `file` in the directory of the file `other`, with `.h` where it has no extension.
pub(crate) fn name_beside(alloc: Global, other: &str, file: &str) -> Result<String, AllocError>
    ensures { IfOk result (λ name. string_bytes name ≡ name_beside other.now file.now) }
{
    let mut name = directory_of(alloc, other)?;
    push_file(&mut name, file)?;
    Ok(name)
}

/// Returns `name` up to its last `/`, which is its directory; nothing where it has no `/`.
fn directory_of(alloc: Global, name: &str) -> Result<String, AllocError>
    ensures { IfOk result (λ directory. string_bytes directory ≡ directory_of name.now) }
{
    let Some((front, _)) = name.rsplit_once('/') else {
        return Ok(String::new(alloc));
    };
    let mut directory = String::from_str(alloc, front)?;
    directory.push_str("/")?;
    Ok(directory)
}

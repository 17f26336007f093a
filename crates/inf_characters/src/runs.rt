//! Runs of bytes that are a character each, in every mode and both character sets: what most texts are made of.
ghost use Rattle.std.specs.List.{list_all};
ghost use Rattle.std.specs.Prelude.{◌≡◌, ◌≤◌, ◌++◌, IfErr, OnOk, length, true};
ghost use Rattle.inf_characters.specs.{Characters.is_code, Runs.characters, Runs.begins_itself, Runs.is_itself, Runs.is_single, Runs.run_len};

use crate::characters::Zscii;
use crate::reading::TextFault;
use crate::texts::TextItem;

pub(crate) fn run_len(bytes: &[u8]) -> usize
    ensures value { result ≡ run_len bytes.now }
    ensures within { result ≤ length bytes.now }
{
    for (i, byte) in bytes.iter().enumerate() {
        if !is_single(*byte, &bytes[i + 1..]) {
            return i;
        }
    }
    bytes.len()
}

#[inline]
fn is_single(byte: u8, behind: &[u8]) -> bool
    ensures { result ≡ is_single byte behind.now }
{
    is_itself(byte) || (byte == b' ' && begins_itself(behind))
}

#[inline]
fn begins_itself(bytes: &[u8]) -> bool
    ensures { result ≡ begins_itself bytes.now }
{
    match bytes {
        [first, ..] => is_itself(*first),
        [] => false,
    }
}

#[inline]
fn is_itself(byte: u8) -> bool
    ensures { result ≡ is_itself byte }
{
    matches!(byte, b'_'..=b'}') || (matches!(byte, b'!'..=b'[') && byte != b'@')
}

/// Appends `bytes`, each of which is the code of a character, to `items`.
pub(crate) fn push_characters(items: &mut Vec<TextItem>, bytes: &[u8]) -> Result<(), TextFault>
    requires { list_all is_code bytes.now ≡ true }
    ensures ok { OnOk result (items.new.items ≡ items.old.items ++ characters bytes.now) }
    ensures err { IfErr result (λ fault. fault ≡ TextFault.Memory) }
{
    items.reserve(bytes.len())?;
    for byte in bytes {
        items.push_reserved(TextItem::Character(Zscii::from_code(*byte)));
    }
    Ok(())
}

//! The header of a story (Z-Machine Standard 1.1, section 11.1).
ghost use Rattle.std.specs.Prelude.{◌≡◌, ◌++◌, ◌+◌, ◌<◌, OnOk, flat_map};
ghost use Rattle.inf_link.specs.Header.{checksum, header, header_back, header_front, number_bytes};

use crate::areas::Areas;
use inf_area::{Scale, word_bytes};
use std::alloc::AllocError;

/// The number of bytes of a header, behind which the areas begin.
pub const HEADER_SIZE: usize = 64;

/// The bytes of a header behind the checksum, all of which are 0.
const HEADER_REST: [u8; 34] = [0; 34];

/// The parts of a header beside the places of areas, the length and the checksum.
#[derive(Clone, Copy)]
pub struct HeaderFields {
    pub release: u16,
    /// The digits of the serial number, as characters.
    pub serial: [u8; 6],
    pub scale: Scale,
}

/// Returns the sum of the bytes modulo 65536.
fn checksum(bytes: &[u8]) -> u16
    ensures { result ≡ checksum bytes.now }
{
    let mut sum: u16 = 0;
    for byte in bytes {
        sum = sum.wrapping_add(u16::from(*byte));
    }
    sum
}

/// Appends numbers in two bytes each, modulo 65536.
fn append_numbers(out: &mut Vec<u8>, numbers: &[usize]) -> Result<(), AllocError>
    ensures { OnOk result (out.new.items ≡ out.old.items ++ flat_map number_bytes numbers.now) }
{
    for number in numbers {
        out.extend_from_slice(&word_bytes((number % 65536) as u16))?;
    }
    Ok(())
}

/// Appends the header up to the serial number, of a story whose areas begin at `bases`.
#[tactic(auto, unfolding(crate::specs::Header::header_front))]
fn append_front(
    out: &mut Vec<u8>,
    fields: HeaderFields,
    bases: &Areas<usize>,
) -> Result<(), AllocError>
    requires small { bases.now.code < 65536 }
    ensures { OnOk result (out.new.items ≡ out.old.items ++ header_front fields bases.now) }
{
    out.extend_from_slice(&[fields.scale.version(), 0])?;
    append_numbers(
        out,
        &[
            usize::from(fields.release),
            bases.code,
            bases.code + 1,
            bases.dictionary,
            bases.property_defaults,
            bases.globals,
            bases.grammar,
            0,
        ],
    )?;
    out.extend_from_slice(&fields.serial)
}

/// Appends the header behind the serial number, of a story with the bytes `body` behind it, whose abbreviations begin at `abbreviations`.
#[tactic(auto, unfolding(crate::specs::Header::header_back))]
fn append_back(
    out: &mut Vec<u8>,
    scale: Scale,
    abbreviations: usize,
    body: &[u8],
) -> Result<(), AllocError>
    ensures { OnOk result (out.new.items ≡ out.old.items ++ header_back scale abbreviations body.now) }
{
    let length = (HEADER_SIZE + body.len()) / scale.number();
    append_numbers(out, &[abbreviations, length, usize::from(checksum(body))])?;
    out.extend_from_slice(&HEADER_REST)
}

/// Appends the header of a story with the bytes `body` behind it, whose areas begin at `bases`.
pub fn append_header(
    out: &mut Vec<u8>,
    fields: HeaderFields,
    bases: &Areas<usize>,
    body: &[u8],
) -> Result<(), AllocError>
    requires small { bases.now.code < 65536 }
    ensures { OnOk result (out.new.items ≡ out.old.items ++ header fields bases.now body.now) }
{
    append_front(out, fields, bases)?;
    append_back(out, fields.scale, bases.abbreviations, body)
}

//! The bytes of areas, one behind the other.
ghost use Rattle.std.specs.Prelude.{◌≡◌, ◌++◌, IfOk, OnOk, length};
ghost use Rattle.inf_link.specs.{Areas.contents, Bodies.body, Bodies.joined, Bodies.padded};

use crate::areas::Areas;
use inf_area::{Area, Scale};
use std::alloc::{AllocError, Global};

/// Appends zeros up to the next place that has a packed address. The bytes follow a header, whose length is a multiple of
/// the scale of these addresses.
fn fill_up(out: &mut Vec<u8>, scale: Scale) -> Result<(), AllocError>
    ensures { OnOk result (out.new.items ≡ padded scale out.old.items) }
{
    let number = scale.number();
    let gap = (number - out.len() % number) % number;
    for _ in 0..gap {
        out.push(0)?;
    }
    Ok(())
}

/// Returns the bytes behind the header of a story of `areas`, of which there are `len`. It fails for want of memory alone.
pub fn body<A: Area>(
    alloc: Global,
    len: usize,
    areas: &Areas<A>,
    scale: Scale,
) -> Result<Vec<u8>, AllocError>
    ensures { IfOk result (λ out. out.items ≡ body scale (contents A.bytes areas.now)) }
{
    let mut out = Vec::with_capacity(alloc, len)?;
    areas.low_strings.append_to(&mut out)?;
    areas.abbreviations.append_to(&mut out)?;
    areas.property_defaults.append_to(&mut out)?;
    areas.objects.append_to(&mut out)?;
    areas.property_tables.append_to(&mut out)?;
    areas.class_numbers.append_to(&mut out)?;
    areas.individual_tables.append_to(&mut out)?;
    areas.globals.append_to(&mut out)?;
    areas.arrays.append_to(&mut out)?;
    areas.grammar.append_to(&mut out)?;
    areas.actions.append_to(&mut out)?;
    areas.parsing_routines.append_to(&mut out)?;
    areas.dictionary.append_to(&mut out)?;
    fill_up(&mut out, scale)?;
    areas.code.append_to(&mut out)?;
    fill_up(&mut out, scale)?;
    areas.strings.append_to(&mut out)?;
    fill_up(&mut out, scale)?;
    Ok(out)
}

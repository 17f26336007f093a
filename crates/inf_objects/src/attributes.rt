//! The 48 attributes, each of which an object has or has not.
ghost use Rattle.std.specs.Prelude.{◌≡◌, ◌+◌, ◌≤◌, ◌++◌, length, OnOk, if◌then◌else◌, false, slice_index_or};
ghost use Rattle.inf_objects.specs.Attributes.{attributes_by, attribute_cells, flag_byte, said_or, together};

use inf_area::Cells;
use std::alloc::AllocError;

/// The number of attributes.
pub const ATTRIBUTES: usize = 48;

/// Adds the attributes of a class to those of other classes.
pub(crate) fn join(above: &mut [bool; 48], class: &[bool; 48])
    ensures { above.new ≡ together above.old class.now }
{
    for place in 0..ATTRIBUTES {
        above[place] = above[place] | class[place];
    }
}

fn said_or(said: Option<bool>, above: bool) -> bool
    ensures { result ≡ said_or said above }
{
    match said {
        Some(given) => given,
        None => above,
    }
}

/// Returns the attributes of an object: each as its body `said`, or, where it said nothing, as `above`, its classes together, has it.
pub(crate) fn attributes_by(above: &[bool; 48], said: &[Option<bool>; 48]) -> [bool; 48]
    ensures { result ≡ attributes_by above.now said.now }
{
    let mut all = *above;
    for place in 0..ATTRIBUTES {
        all[place] = said_or(said[place], all[place]);
    }
    all
}

/// Returns `bit` where `flag` is set, and else 0.
fn weight(flag: bool, bit: u8) -> u8
    ensures value { result ≡ (if flag then bit else 0) }
    ensures within { result ≤ bit }
{
    if flag { bit } else { 0 }
}

/// Returns eight attributes from `first` on as a byte, the first as its top bit.
#[tactic(auto, unfolding(crate::specs::Attributes::flag_byte))]
fn flag_byte(attributes: &[bool; 48], first: usize) -> u8
    requires { first + 8 ≤ 48 }
    ensures { result ≡ flag_byte attributes.now first }
{
    weight(attributes[first], 128)
        + weight(attributes[first + 1], 64)
        + weight(attributes[first + 2], 32)
        + weight(attributes[first + 3], 16)
        + weight(attributes[first + 4], 8)
        + weight(attributes[first + 5], 4)
        + weight(attributes[first + 6], 2)
        + weight(attributes[first + 7], 1)
}

/// Appends the six bytes of an object's attributes to `cells`.
#[tactic(auto, unfolding(crate::specs::Attributes::attribute_cells))]
pub fn add_attributes(cells: &mut Cells, attributes: &[bool; 48]) -> Result<(), AllocError>
    ensures { OnOk result (cells.new ≡ cells.old ++ attribute_cells attributes.now) }
{
    cells.byte(flag_byte(attributes, 0))?;
    cells.byte(flag_byte(attributes, 8))?;
    cells.byte(flag_byte(attributes, 16))?;
    cells.byte(flag_byte(attributes, 24))?;
    cells.byte(flag_byte(attributes, 32))?;
    cells.byte(flag_byte(attributes, 40))
}

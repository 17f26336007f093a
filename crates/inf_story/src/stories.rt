//! The story of a source.
ghost use Rattle.std.specs.Prelude.{◌≡◌, ◌⊎◌, IfOk, MatchResult, None, Some};
ghost use Rattle.inf_link.specs.declared.link.LinkFault.TheVariants.{Memory};
ghost use Rattle.inf_story.specs.Stories.{story, story_sizes, too_long};

use crate::tables::{areas, targets};
use inf_area::{PagedArea, Refs, Value};
use inf_code::code::Code;
use inf_link::{HeaderFields, Link, LinkFault, Story};
use inf_settings::bounds::Bounds;
use inf_tables::Tables;
use std::alloc::Global;

/// Returns the story of `code`, `strings` and `tables`, with the header `fields`, in which the routine at place `main` of the code is
/// called first, and `names` are the values of the names.
///
/// Refuses first where code would begin at an address over 65,534, then where the story would be longer than one of its version may
/// be. The areas are made before they are measured, so want of memory may come in place of each of these.
pub fn story<B: Bounds>(
    alloc: Global,
    fields: HeaderFields,
    main: usize,
    names: Vec<Value>,
    code: Code<B>,
    strings: PagedArea,
    tables: Tables<B>,
) -> Result<Story, LinkFault>
    ensures bytes { IfOk result (λ s. s.bytes ≡ story fields main names.items code.finished strings tables) }
    ensures sizes { IfOk result (λ s. s.sizes ≡ story_sizes fields main code.finished strings tables s.bytes) }
    ensures fault { let long = too_long fields main code.finished strings tables in
        MatchResult result (λ _. long ≡ None) (λ fault. (fault ≡ Memory) ⊎ (long ≡ Some fault)) }
{
    linked(alloc, fields, main, names, code, strings, &tables)
}

/// Returns the story as `story` does, from `tables`, which the caller keeps.
fn linked<B: Bounds>(
    alloc: Global,
    fields: HeaderFields,
    main: usize,
    names: Vec<Value>,
    code: Code<B>,
    strings: PagedArea,
    tables: &Tables<B>,
) -> Result<Story, LinkFault>
    ensures bytes { IfOk result (λ s. s.bytes ≡ story fields main names.items code.finished strings tables.now) }
    ensures sizes { IfOk result (λ s. s.sizes ≡ story_sizes fields main code.finished strings tables.now s.bytes) }
    ensures fault { let long = too_long fields main code.finished strings tables.now in
        MatchResult result (λ _. long ≡ None) (λ fault. (fault ≡ Memory) ⊎ (long ≡ Some fault)) }
{
    let mut refs = Refs::new(alloc, usize::MAX);
    let areas = areas(alloc, main, code, strings, tables, &mut refs)?;
    let targets = targets(alloc, names, tables)?;
    Link::new(alloc, areas, refs, targets, fields).link()
}

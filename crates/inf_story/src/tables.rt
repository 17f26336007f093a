//! The areas of a story, one by one.
ghost use Rattle.std.specs.Prelude.{◌≡◌, ℕ, List, ◌-◌, ◌++◌, [], IfOk, OnOk};
ghost use Rattle.inf_area.specs.{Cells.bytes_of, Cells.fixups_of, Cells.values_cells, Fixups.with_fixups};
ghost use Rattle.inf_arrays.specs.{Arrays.all_of, Arrays.arrays_cells, Globals.globals_cells};
ghost use Rattle.inf_code.specs.Code.{code_cells, known};
ghost use Rattle.inf_dictionary.specs.Words.{dictionary_bytes};
ghost use Rattle.inf_link.specs.{Areas.by_name, FillingLaws.cells_contents, FillingLaws.cells_fixups, Targets.lookup};
ghost use Rattle.inf_story.specs.Tables.{abbreviations, areas, looked_up, low_strings, undeclared};
ghost use Rattle.inf_verbs.specs.{Routines.routines_cells, Verbs.grammar_cells};
ghost use Rattle.inf_tables.specs.Areas.{area_cells, name_of};

use inf_area::{Area, AreaName, Cells, PagedArea, Refs, Target, Value, append_cells};
use inf_code::code::Code;
use inf_link::{Areas, Targets};
use inf_settings::bounds::Bounds;
use inf_tables::{
    Actions, Arrays, Dictionary, Globals, LowStrings, ParsingRoutines, Tables, Verbs, World,
    WorldArea,
};
use std::alloc::{AllocError, Global};

/// The first low string: three spaces.
const THREE_SPACES: [u8; 2] = [0x80, 0x00];

/// An abbreviation that is not declared: the address in words of the first low string.
const NO_ABBREVIATION: Value = Value::Known(32);

// Each area with fixups puts them behind others. Their list has no limit, so that a table is left unwritten only for want of memory.

/// Returns the area of the low strings: the first one and those behind it.
#[tactic(auto, using(crate::proofs::Areas::low_are))]
fn low_strings<B: Bounds>(alloc: Global, behind: &LowStrings<B>) -> Result<PagedArea, AllocError>
    ensures { IfOk result (λ area. area ≡ bytes_of (low_strings behind.now.bytes)) }
{
    let mut area = PagedArea::new(alloc);
    area.append(&THREE_SPACES)?;
    area.append(behind.as_slice())?;
    Ok(area)
}

/// Returns the entries of the table of abbreviations that are not declared, behind `declared` that are. There are 64 of both together.
#[tactic(auto, using(crate::proofs::Undeclared::left_taken, crate::proofs::Undeclared::left_of))]
fn undeclared(declared: usize) -> &'static [Value]
    ensures { values_cells result.now ≡ undeclared (64 - declared) }
{
    const ALL: [Value; 64] = [NO_ABBREVIATION; 64];
    &ALL[declared.min(64)..]
}

/// Returns the table of abbreviations, of which those are declared whose low strings begin at `places`.
#[tactic(auto, unfolding(crate::specs::Tables::abbreviations))]
fn abbreviation_cells(alloc: Global, places: &[usize]) -> Result<Cells, AllocError>
    ensures { IfOk result (λ cells. cells ≡ abbreviations places.now) }
{
    let mut cells = Cells::new(alloc);
    cells.values(&[NO_ABBREVIATION; 32])?;
    for place in places {
        cells.later(Target::Place(AreaName::LowStrings, *place))?;
    }
    cells.values(undeclared(places.len()))?;
    Ok(cells)
}

/// Returns the area of the abbreviations, whose low strings begin at `places`.
fn abbreviations(alloc: Global, places: &[usize], refs: &mut Refs) -> Result<PagedArea, AllocError>
    ensures bytes { IfOk result (λ area. area ≡ bytes_of (abbreviations places.now)) }
    ensures fixups { OnOk result (refs.new
        ≡ with_fixups (refs.old.list ++ fixups_of AreaName.Abbreviations 0 (abbreviations places.now)) refs.old) }
{
    let cells = abbreviation_cells(alloc, places)?;
    let mut area = PagedArea::new(alloc);
    if append_cells(
        alloc,
        AreaName::Abbreviations,
        &mut area,
        refs,
        cells.as_slice(),
    )
    .is_err()
    {
        return Err(AllocError);
    }
    Ok(area)
}

/// Returns the area `which` of the world.
fn world_area<B: Bounds>(
    alloc: Global,
    world: &World<B>,
    which: WorldArea,
    refs: &mut Refs,
) -> Result<PagedArea, AllocError>
    ensures bytes { IfOk result (λ area. area ≡ bytes_of (area_cells which world.now)) }
    ensures fixups { OnOk result (refs.new
        ≡ with_fixups (refs.old.list ++ fixups_of (name_of which) 0 (area_cells which world.now)) refs.old) }
{
    let mut area = PagedArea::new(alloc);
    if world.write(which, &mut area, refs).is_err() {
        return Err(AllocError);
    }
    Ok(area)
}

/// Returns the area of the global variables' values.
fn globals(alloc: Global, globals: &Globals, refs: &mut Refs) -> Result<PagedArea, AllocError>
    ensures bytes { IfOk result (λ area. area ≡ bytes_of (globals_cells globals.now)) }
    ensures fixups { OnOk result (refs.new
        ≡ with_fixups (refs.old.list ++ fixups_of AreaName.Globals 0 (globals_cells globals.now)) refs.old) }
{
    let mut area = PagedArea::new(alloc);
    if globals.write(&mut area, refs).is_err() {
        return Err(AllocError);
    }
    Ok(area)
}

/// Returns the area of the arrays.
fn arrays<B: Bounds>(
    alloc: Global,
    arrays: &Arrays<B>,
    refs: &mut Refs,
) -> Result<PagedArea, AllocError>
    ensures bytes { IfOk result (λ area. area ≡ bytes_of (arrays_cells (all_of arrays.now))) }
    ensures fixups { OnOk result (refs.new
        ≡ with_fixups (refs.old.list ++ fixups_of AreaName.Arrays 0 (arrays_cells (all_of arrays.now))) refs.old) }
{
    let mut area = PagedArea::new(alloc);
    if arrays.write(&mut area, refs).is_err() {
        return Err(AllocError);
    }
    Ok(area)
}

/// Returns the area of the verbs' lines.
fn grammar<B: Bounds>(
    alloc: Global,
    verbs: &Verbs<B>,
    refs: &mut Refs,
) -> Result<PagedArea, AllocError>
    ensures bytes { IfOk result (λ area. area ≡ bytes_of (grammar_cells verbs.now.list)) }
    ensures fixups { OnOk result (refs.new
        ≡ with_fixups (refs.old.list ++ fixups_of AreaName.Grammar 0 (grammar_cells verbs.now.list)) refs.old) }
{
    let mut area = PagedArea::new(alloc);
    if verbs.write(&mut area, refs).is_err() {
        return Err(AllocError);
    }
    Ok(area)
}

/// Returns the area of the actions' routines.
fn actions<B: Bounds>(
    alloc: Global,
    actions: &Actions<B>,
    refs: &mut Refs,
) -> Result<PagedArea, AllocError>
    ensures bytes { IfOk result (λ area. area ≡ bytes_of (routines_cells actions.now.routines)) }
    ensures fixups { OnOk result (refs.new
        ≡ with_fixups (refs.old.list ++ fixups_of AreaName.Actions 0 (routines_cells actions.now.routines)) refs.old) }
{
    let mut area = PagedArea::new(alloc);
    if actions.write(&mut area, refs).is_err() {
        return Err(AllocError);
    }
    Ok(area)
}

/// Returns the area of the routines that parse.
fn parsing_routines(
    alloc: Global,
    routines: &ParsingRoutines,
    refs: &mut Refs,
) -> Result<PagedArea, AllocError>
    ensures bytes { IfOk result (λ area. area ≡ bytes_of (routines_cells routines.now)) }
    ensures fixups { OnOk result (refs.new
        ≡ with_fixups (refs.old.list ++ fixups_of AreaName.ParsingRoutines 0 (routines_cells routines.now)) refs.old) }
{
    let mut area = PagedArea::new(alloc);
    if routines.write(&mut area, refs).is_err() {
        return Err(AllocError);
    }
    Ok(area)
}

/// Returns the area of the dictionary.
#[tactic(auto, using(crate::proofs::Areas::known_bytes))]
fn dictionary<B: Bounds>(alloc: Global, words: &Dictionary<B>) -> Result<PagedArea, AllocError>
    ensures { IfOk result (λ area. area ≡ bytes_of (known (dictionary_bytes words.now.list))) }
{
    let mut area = PagedArea::new(alloc);
    words.write(alloc, &mut area)?;
    Ok(area)
}

/// Returns the area of the code, whose first routine calls the one at the place `main`.
fn code<B: Bounds>(code: Code<B>, main: usize, refs: &mut Refs) -> Result<PagedArea, AllocError>
    ensures bytes { IfOk result (λ area. area ≡ bytes_of (code_cells (Target.Place AreaName.Code main) code.finished)) }
    ensures fixups { OnOk result (refs.new
        ≡ with_fixups (refs.old.list ++ fixups_of AreaName.Code 0 (code_cells (Target.Place AreaName.Code main) code.finished)) refs.old) }
{
    match code.into_area(Target::Place(AreaName::Code, main), refs) {
        Ok(area) => Ok(area),
        Err(_) => Err(AllocError),
    }
}

/// Returns areas with no bytes.
fn no_areas(alloc: Global) -> Areas<PagedArea>
    ensures { result ≡ by_name (λ name. []) }
{
    Areas {
        low_strings: PagedArea::new(alloc),
        abbreviations: PagedArea::new(alloc),
        property_defaults: PagedArea::new(alloc),
        objects: PagedArea::new(alloc),
        property_tables: PagedArea::new(alloc),
        class_numbers: PagedArea::new(alloc),
        individual_tables: PagedArea::new(alloc),
        globals: PagedArea::new(alloc),
        arrays: PagedArea::new(alloc),
        grammar: PagedArea::new(alloc),
        actions: PagedArea::new(alloc),
        parsing_routines: PagedArea::new(alloc),
        dictionary: PagedArea::new(alloc),
        code: PagedArea::new(alloc),
        strings: PagedArea::new(alloc),
    }
}

/// Puts the tables of the world into their areas.
fn put_world<B: Bounds>(
    alloc: Global,
    world: &World<B>,
    areas: &mut Areas<PagedArea>,
    refs: &mut Refs,
) -> Result<(), AllocError>
    ensures areas { OnOk result (areas.new ≡ record areas.old {
      property_defaults = bytes_of (area_cells WorldArea.PropertyDefaults world.now);
      objects = bytes_of (area_cells WorldArea.Objects world.now);
      property_tables = bytes_of (area_cells WorldArea.PropertyTables world.now);
      class_numbers = bytes_of (area_cells WorldArea.ClassNumbers world.now);
      individual_tables = bytes_of (area_cells WorldArea.IndividualTables world.now);
    }) }
    ensures fixups { OnOk result (refs.new ≡ with_fixups (((((refs.old.list
        ++ fixups_of AreaName.PropertyDefaults 0 (area_cells WorldArea.PropertyDefaults world.now))
        ++ fixups_of AreaName.Objects 0 (area_cells WorldArea.Objects world.now))
        ++ fixups_of AreaName.PropertyTables 0 (area_cells WorldArea.PropertyTables world.now))
        ++ fixups_of AreaName.ClassNumbers 0 (area_cells WorldArea.ClassNumbers world.now))
        ++ fixups_of AreaName.IndividualTables 0 (area_cells WorldArea.IndividualTables world.now)) refs.old) }
{
    areas.property_defaults = world_area(alloc, world, WorldArea::PropertyDefaults, refs)?;
    areas.objects = world_area(alloc, world, WorldArea::Objects, refs)?;
    areas.property_tables = world_area(alloc, world, WorldArea::PropertyTables, refs)?;
    areas.class_numbers = world_area(alloc, world, WorldArea::ClassNumbers, refs)?;
    areas.individual_tables = world_area(alloc, world, WorldArea::IndividualTables, refs)?;
    Ok(())
}

/// Puts variables, arrays, the grammar and the dictionary into their areas.
fn put_lists<B: Bounds>(
    alloc: Global,
    tables: &Tables<B>,
    areas: &mut Areas<PagedArea>,
    refs: &mut Refs,
) -> Result<(), AllocError>
    ensures areas { OnOk result (areas.new ≡ record areas.old {
      globals = bytes_of (globals_cells tables.now.globals);
      arrays = bytes_of (arrays_cells (all_of tables.now.arrays));
      grammar = bytes_of (grammar_cells tables.now.verbs.list);
      actions = bytes_of (routines_cells tables.now.actions.routines);
      parsing_routines = bytes_of (routines_cells tables.now.parsing);
      dictionary = bytes_of (known (dictionary_bytes tables.now.dictionary.list));
    }) }
    ensures fixups { OnOk result (refs.new ≡ with_fixups (((((refs.old.list
        ++ fixups_of AreaName.Globals 0 (globals_cells tables.now.globals))
        ++ fixups_of AreaName.Arrays 0 (arrays_cells (all_of tables.now.arrays)))
        ++ fixups_of AreaName.Grammar 0 (grammar_cells tables.now.verbs.list))
        ++ fixups_of AreaName.Actions 0 (routines_cells tables.now.actions.routines))
        ++ fixups_of AreaName.ParsingRoutines 0 (routines_cells tables.now.parsing)) refs.old) }
{
    areas.globals = globals(alloc, &tables.globals, refs)?;
    areas.arrays = arrays(alloc, &tables.arrays, refs)?;
    areas.grammar = grammar(alloc, &tables.verbs, refs)?;
    areas.actions = actions(alloc, &tables.actions, refs)?;
    areas.parsing_routines = parsing_routines(alloc, &tables.parsing, refs)?;
    areas.dictionary = dictionary(alloc, &tables.dictionary)?;
    Ok(())
}

/// Puts the code and the contents of `tables` into their areas of `written`, all but the strings, and the fixups of all
/// behind those of `refs`, of which there are none. The first routine of the code calls the one at the place `main`.
#[tactic(auto, using(crate::proofs::Areas::all_fixups, crate::proofs::Areas::known_bytes))]
fn put_all<B: Bounds>(
    alloc: Global,
    main: usize,
    routines: Code<B>,
    tables: &Tables<B>,
    written: &mut Areas<PagedArea>,
    refs: &mut Refs,
) -> Result<(), AllocError>
    requires none { refs.old.list ≡ [] }
    ensures bytes { (strings : List ℕ) → OnOk result (record written.new { strings = strings }
        ≡ cells_contents (areas main routines.finished strings tables.now)) }
    ensures fixups { (strings : List ℕ) → OnOk result (refs.new.list ≡ cells_fixups (areas main routines.finished strings tables.now)) }
{
    written.low_strings = low_strings(alloc, &tables.low_strings)?;
    written.abbreviations = abbreviations(alloc, tables.low_strings.abbreviation_places(), refs)?;
    put_world(alloc, &tables.world, written, refs)?;
    put_lists(alloc, tables, written, refs)?;
    written.code = code(routines, main, refs)?;
    Ok(())
}

/// Returns all areas, and puts the fixups of all into `refs`, where there are none yet.
pub(crate) fn areas<B: Bounds>(
    alloc: Global,
    main: usize,
    routines: Code<B>,
    strings: PagedArea,
    tables: &Tables<B>,
    refs: &mut Refs,
) -> Result<Areas<PagedArea>, AllocError>
    requires none { refs.old.list ≡ [] }
    ensures bytes { IfOk result (λ written. written ≡ cells_contents (areas main routines.finished strings tables.now)) }
    ensures fixups { OnOk result (refs.new.list ≡ cells_fixups (areas main routines.finished strings tables.now)) }
{
    let mut written = no_areas(alloc);
    let put = put_all(alloc, main, routines, tables, &mut written, refs);
    written.strings = strings;
    put?;
    Ok(written)
}

/// Returns the places and values by which targets are looked up in a story with `tables` and the values `names`.
pub(crate) fn targets<B: Bounds>(
    alloc: Global,
    names: Vec<Value>,
    tables: &Tables<B>,
) -> Result<Targets, AllocError>
    ensures { IfOk result (λ targets. lookup targets ≡ looked_up names.items tables.now) }
{
    let world = &tables.world;
    Ok(Targets {
        names,
        property_tables: world.table_places()?,
        individual_tables: world.individual_places()?,
        verbs: tables.verbs.places()?,
        words: tables.dictionary.places(alloc)?.into_texts(),
        last_object: (world.object_count() % 65536) as u16,
    })
}

//! The parts of a story that is spelled line by line.
use crate::spelled::{area, part, target, value};
use inf_area::{AreaName, Fixup, Target};
use inf_link::Targets;
use inf_test_lines::{number_or, six_bytes, word};
use std::alloc::{AllocError, Global};

/// A thing that is put behind an area.
#[derive(Clone, Copy)]
pub(crate) enum Put {
    One(u8),
    Two([u8; 2]),
    Later(Target),
}

/// A thing that is put behind an area, and how often.
#[derive(Clone, Copy)]
pub(crate) struct Piece {
    pub(crate) area: AreaName,
    pub(crate) put: Put,
    pub(crate) count: usize,
}

/// The parts of a story so far.
#[derive(Drop)]
pub(crate) struct Script {
    pub(crate) pieces: Vec<Piece>,
    // The fixups for which no bytes are put.
    pub(crate) fixups: Vec<Fixup>,
    pub(crate) targets: Targets,
}

/// A line that gives parts of a story.
#[derive(Clone, Copy)]
pub(crate) enum Given {
    /// Things that are put behind an area.
    Pieces(AreaName),
    /// A fixup without bytes.
    Fixup,
    /// The values of names.
    Names,
    /// The places of the parts of an area.
    Parts,
    /// The texts of words.
    Words,
    /// The number of the last object.
    Last,
}

/// Returns the parts that a line with this first word gives.
pub(crate) fn given_of(first: &str) -> Option<Given> {
    Some(match first {
        "fixup" => Given::Fixup,
        "names" => Given::Names,
        "parts" => Given::Parts,
        "words" => Given::Words,
        "last" => Given::Last,
        name => Given::Pieces(area(name)?),
    })
}

/// Returns the thing that a word puts behind an area.
fn put_of(spelled: &str) -> Put {
    if let Some(later) = spelled.strip_prefix('@') {
        return Put::Later(target(later));
    }
    let digits: u16 = u16::from_str_radix(spelled, 16).unwrap_or(0);
    let [high, low] = digits.to_be_bytes();
    if spelled.len() == 2 {
        Put::One(low)
    } else {
        Put::Two([high, low])
    }
}

/// Returns the piece of an area that a word spells.
fn piece_of(area: AreaName, spelled: &str) -> Piece {
    Piece {
        area,
        put: put_of(part(spelled, '*', 0)),
        count: part(spelled, '*', 1).parse().unwrap_or(1),
    }
}

/// Returns the fixup that a line spells.
fn fixup_of(line: &str) -> Fixup {
    Fixup {
        area: area(word(line, 1)).unwrap_or(AreaName::Strings),
        place: number_or(line, 2, 0),
        target: target(part(line, '@', 1)),
    }
}

impl Script {
    /// Returns a script of no lines yet.
    pub(crate) fn new(alloc: Global) -> Script {
        Script {
            pieces: Vec::new(alloc),
            fixups: Vec::new(alloc),
            targets: Targets {
                names: Vec::new(alloc),
                property_tables: Vec::new(alloc),
                individual_tables: Vec::new(alloc),
                verbs: Vec::new(alloc),
                words: Vec::new(alloc),
                last_object: 0,
            },
        }
    }

    /// Adds the pieces of an area.
    fn add_pieces(&mut self, area: AreaName, line: &str) -> Result<(), AllocError> {
        for spelled in line.split(' ').skip(1) {
            self.pieces.push(piece_of(area, spelled))?;
        }
        Ok(())
    }

    /// Adds the values of names.
    fn add_names(&mut self, line: &str) -> Result<(), AllocError> {
        for spelled in line.split(' ').skip(1) {
            self.targets.names.push(value(spelled))?;
        }
        Ok(())
    }

    /// Adds the texts of words.
    fn add_words(&mut self, line: &str) -> Result<(), AllocError> {
        for spelled in line.split(' ').skip(1) {
            self.targets.words.push(six_bytes(spelled))?;
        }
        Ok(())
    }

    /// Adds the places of the parts of an area.
    fn add_places(&mut self, line: &str) -> Result<(), AllocError> {
        let places = match word(line, 1) {
            "PropertyTables" => &mut self.targets.property_tables,
            "IndividualTables" => &mut self.targets.individual_tables,
            _ => &mut self.targets.verbs,
        };
        for spelled in line.split(' ').skip(2) {
            places.push(spelled.parse().unwrap_or(0))?;
        }
        Ok(())
    }

    /// Adds the parts of a story that a line gives.
    pub(crate) fn add(&mut self, given: Given, line: &str) -> Result<(), AllocError> {
        match given {
            Given::Pieces(area) => self.add_pieces(area, line),
            Given::Fixup => {
                self.fixups.push(fixup_of(line))?;
                Ok(())
            }
            Given::Names => self.add_names(line),
            Given::Parts => self.add_places(line),
            Given::Words => self.add_words(line),
            Given::Last => {
                self.targets.last_object = word(line, 1).parse().unwrap_or(0);
                Ok(())
            }
        }
    }
}

//! The other questions to machines, beside those to read a piece.
use crate::pieces::token;
use crate::reader::Reader;
use inf_grammar::{FILE, PIECE, atom_of};
use std::alloc::{AllocError, Global};

/// Returns whether all tokens of a piece fit, and their actions, in order.
pub(crate) fn actions(
    alloc: Global,
    reader: &mut Reader,
    piece: &str,
) -> Result<String, AllocError> {
    reader.machine.start(PIECE)?;
    let fit = reader.read_all(piece)?;
    format!(in alloc; "fit: {fit}, {:?}", reader.actions.as_slice())
}

/// Returns whether all tokens of a source fit, whether it may end behind them, and whether a routine is open there.
pub(crate) fn source(
    alloc: Global,
    reader: &mut Reader,
    tokens: &str,
) -> Result<String, AllocError> {
    reader.machine.start(FILE)?;
    let fit = reader.read_all(tokens)?;
    let can_end = reader.machine.can_end();
    let is_in_routine = reader.machine.is_in_routine();
    format!(in alloc; "fit: {fit}, can end: {can_end}, in a routine: {is_in_routine}")
}

/// Returns whether two words are the same to the grammar.
pub(crate) fn same(alloc: Global, words: &str) -> Result<String, AllocError> {
    let (word, other) = words.split_once(' ').unwrap_or((words, ""));
    let is_same = atom_of(token(word.as_bytes())) == atom_of(token(other.as_bytes()));
    format!(in alloc; "{is_same}")
}

/// Returns of each of some tokens whether a piece may begin with it.
pub(crate) fn begin(
    alloc: Global,
    reader: &mut Reader,
    tokens: &str,
) -> Result<String, AllocError> {
    reader.machine.start(PIECE)?;
    let mut told = String::new(alloc);
    for spelling in tokens.split(' ') {
        told.push_str(if told.is_empty() { "[" } else { ", " })?;
        told.push_str(if reader.fits(spelling) {
            "true"
        } else {
            "false"
        })?;
    }
    told.push_str("]")?;
    Ok(told)
}

/// Takes the first token of a piece and gives the piece up; then begins another one. Returns whether a routine is open,
/// whether the machine is done then, and whether the token fits before and behind the beginning.
pub(crate) fn give_up(
    alloc: Global,
    reader: &mut Reader,
    spelling: &str,
) -> Result<String, AllocError> {
    reader.machine.start(PIECE)?;
    reader.take(spelling)?;
    let is_in_routine = reader.machine.is_in_routine();
    reader.machine.clear();
    let is_done = reader.machine.is_done();
    let fits = reader.fits(spelling);
    reader.machine.start(PIECE)?;
    let fits_again = reader.fits(spelling);
    format!(in alloc;
        "in a routine: {is_in_routine}, done: {is_done}, fits: {fits}, fits again: {fits_again}"
    )
}

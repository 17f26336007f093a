//! The machine over pieces of source, a line each with spaces between its tokens. Each piece is answered by a line: whole, or the
//! number of its tokens before the bad one. A line that begins with `! ` is a title.
//!
//! `stdin` has pieces of each kind of directive and statement, with and without a bad token, and the pieces of whole sources; the
//! answers in `stdout` come from a recognizer that was written apart.
//!
//! Other lines begin with `!` and a question:
//!
//! - `!actions PIECE` tells whether all tokens of a piece fit, and their actions, in order;
//! - `!source TOKENS` tells whether all tokens fit, whether a source may end behind them, and whether a routine is open there;
//! - `!same WORD WORD` tells whether two words are the same to the grammar;
//! - `!begin TOKENS` tells of each token whether a piece may begin with it;
//! - `!bad PIECE` tries bad tokens before each token of a piece, and tells whether they changed anything, or whether `read` and `take` do
//!   not do the same;
//! - `!give_up TOKEN` takes a token, gives the piece up, and begins another one.
#![tactic(auto)]

mod asked;
mod pieces;
mod reader;
mod tried;

use crate::reader::Reader;
use std::alloc::{AllocError, Global};
use std::io::{self, BufRead, BufReader};

/// Returns the answer to a line, or a title itself, by two readers whose machines have not started.
fn told(
    alloc: Global,
    line: &str,
    reader: &mut Reader,
    other: &mut Reader,
) -> Result<String, AllocError> {
    let Some(question) = line.strip_prefix('!') else {
        return pieces::told(alloc, reader, line);
    };
    let (name, tokens) = question.split_once(' ').unwrap_or((question, ""));
    match name {
        "" => String::from_str(alloc, tokens),
        "actions" => asked::actions(alloc, reader, tokens),
        "source" => asked::source(alloc, reader, tokens),
        "same" => asked::same(alloc, tokens),
        "begin" => asked::begin(alloc, reader, tokens),
        "bad" => String::from_str(alloc, tried::told(reader, other, tokens)?),
        "give_up" => asked::give_up(alloc, reader, tokens),
        _ => String::from_str(alloc, "no question"),
    }
}

/// Returns the answer to a line by a reader whose machine has not started, and another one where the line asks for two.
fn told_by(alloc: Global, line: &str, reader: &mut Reader) -> Result<String, AllocError> {
    let mut other = Reader::new(alloc);
    told(alloc, line, reader, &mut other)
}

/// Returns the answer to a line.
fn answer(alloc: Global, line: &str) -> Result<String, AllocError> {
    let mut reader = Reader::new(alloc);
    told_by(alloc, line, &mut reader)
}

/// Writes the answer to a line.
fn write_answer(rt: &HostRuntime, line: &str) -> io::Result<()> {
    let answer = answer(rt.alloc(), line)?;
    println!(rt; "{answer}")
}

fn main(rt: HostRuntime) -> io::Result<()> {
    let alloc = rt.alloc();
    for line in BufReader::new(alloc, rt.reader())?.lines(alloc) {
        write_answer(&rt, line?.as_str())?;
    }
    Ok(())
}

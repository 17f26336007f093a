//! The lexer over a script. Each line of `stdin` has commands with ` | ` between them, and is answered by a line with the answer to
//! each. A line that begins with `! ` is a title.
//!
//! A byte of a source or of a text is written as itself or as `%` and two digits. The commands:
//!
//! - `source NAME TEXT` puts a source into the folder, `long NAME COUNT PIECE TEXT` one of a piece, repeated, and a text behind that;
//! - `numbers COUNT` puts empty sources with the names 0, 1, 2 and so on into it, and `clear` empties it;
//! - `new SET LIMIT FIRST SECOND READS endless` begins anew, with a character set, the most bytes of a quoted token, and a reader of the
//!   folder (`Metered` explains the other words; each may be left out);
//! - `main NAME`, `enter TEXT DIRECTORIES` and `leave` enter and leave files, where commas part the directories;
//! - `next` reads a token, and tells its file, its line and its spelling; `rest` reads all up to the end, and tells their lines;
//! - `tokens SET LIMIT TEXT` does the same with a source that is this text;
//! - `ahead COUNT LENGTH MOST` reads `COUNT` names of one length, and tells whether at most `MOST` bytes are ever given ahead;
//! - `many COUNT` enters and leaves the sources 0, 1, 2 and so on;
//! - `name NUMBER` tells the name of a file; `opened`, `reads` and `given` tell the number of files that were opened, of reads and of bytes
//!   that were given.
//!
//! `stdout` has the answers by the rules of the language.
#![tactic(auto)]

mod metered;
mod session;

use crate::session::Session;
use std::io::{self, BufRead, BufReader};

/// Writes the answer to a line.
fn answer(rt: &HostRuntime, session: &mut Session, line: &str) -> io::Result<()> {
    let answer = session.answer(line)?;
    println!(rt; "{answer}")
}

/// Writes the answer to each line.
fn answer_all(rt: &HostRuntime, session: &mut Session) -> io::Result<()> {
    let alloc = rt.alloc();
    for line in BufReader::new(alloc, rt.reader())?.lines(alloc) {
        answer(rt, session, line?.as_str())?;
    }
    Ok(())
}

fn main(rt: HostRuntime) -> io::Result<()> {
    let mut session = Session::new(rt.alloc());
    answer_all(&rt, &mut session)
}

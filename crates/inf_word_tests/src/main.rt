//! Rows of texts, of names and of the words of commands. Each line of `stdin` is answered by a line; one that begins with `! ` is a title,
//! which is its own answer. The first word says what a line is. A byte of a text is written as itself or as `%` and two digits.
//!
//! **Texts.** `pack SET BYTES COUNT` packs a text, which is repeated where there is a count, and tells the length that is told beforehand
//! and the bytes, two by two; `count SET BYTES COUNT` tells the number of its items; `items SET MODE BYTES` tells the items, where a string variable is 256 and its number,
//! or the first fault; `word BYTES` tells a dictionary word, `char SET BYTE` the code of a byte, and `zscii NUMBER` that of a number.
//! `abbreviations` has commands with ` | ` before each: `declare MODE BYTES`, `count`, `last`, and `pack BYTES`.
//!
//! **Names.** `names LIMIT` has commands: `declare NAME PLACE MEANING`, `refer NAME PLACE`, `look NAME`, `before NAME COUNT`, `use NUMBER`,
//! `meaning NUMBER` and `counts`; `debugging` in front of them asks for debugging. A place is a number, and a meaning `number:5`,
//! `routine:0` or `object:5`. `system NAME` and `debug NAME` tell what a name of the language means, without debugging and with it.
//!
//! **Commands.** The words of a command come behind ` : `, with `|` between them. `refusal` tells the first refusal, `letters` the character
//! set and whether warnings are told, `setting NAME` a number, `paths` the directories, and `files` the names of the source's file and of
//! the story's. `head` has the words of a source's head, with `|` between them, in front of ` : `, and tells what both choose: the scale,
//! whether `Switches` says nothing, the most labels and the first directory. `setting` has the name of a setting there.
//!
//! `stdout` has the answers that the Z-Machine Standard 1.1, the Designer's Manual and the documents of the language require.
#![tactic(auto)]

mod abbreviations;
mod commands;
mod names;
mod rows;
mod texts;

use std::io::{self, BufRead, BufReader};

/// Writes the answer to a line.
fn answer(rt: &HostRuntime, line: &str) -> io::Result<()> {
    let answer = rows::answer(rt.alloc(), line)?;
    println!(rt; "{answer}")
}

fn main(rt: HostRuntime) -> io::Result<()> {
    let alloc = rt.alloc();
    for line in BufReader::new(alloc, rt.reader())?.lines(alloc) {
        answer(&rt, line?.as_str())?;
    }
    Ok(())
}

//! Rows of the assembler, of code, of expressions, of tables and of the linker. Each line of `stdin` is answered by a line, but for those
//! that give parts of a story; one that begins with `! ` is a title, which is its own answer. The first word says what a line is.
//!
//! **Assembler.** A routine is a line of its kind (`plain` or `embedded`), its locals, the most labels, bytes and references, the number of
//! bytes 255 before it, each with a fixup, and the number of bytes that an area takes before it once lacks memory; `-` is for a number
//! that does not matter. Its items follow, with ` | ` before each, and a number before one that is repeated:
//!
//! - `label 0`, and an instruction by its name with its operands: `5` and `#1234` of one and two bytes, `v1` a variable, `r7` a
//!   routine that is known later; `>2` is the variable of its result, `?0`, `?~0`, `?rtrue` and `?rfalse` its branch. A `+`
//!   in place of a number is the turn of a repetition. `jump` takes a label; `print_ret` has a text of its own;
//! - `mark`, and `back` to it;
//! - `bytes` asks for the bytes of the area.
//!
//! The answer has each refusal, the way in which the routine was closed, all bytes, and the fixups, or the first five and the last. Both
//! areas give the same answer. `opcode "NAME"` asks for its row, `area` has steps on an area, `refs LIMIT` steps on a list of fixups.
//!
//! **Code.** `code LABELS BYTES REFS` has steps: `open LOCALS`, `lost LOCALS`, `branch LABEL`, `mark LABEL`, `call N`, `return N`, `new_line`,
//! `quit` and `close`, `whole N` (a routine that calls N), `give_up`, `begin`; `len`, `counts` and `left` ask for the bytes of finished
//! routines, for all bytes and references, and for the labels, bytes and references that are left; `bytes` at the end asks for all.
//!
//! **Expressions.** A line has the way in which expressions are laid, and behind ` : ` their words, each operator behind its parts:
//!
//! - `5` is a number, `v1` a variable, `F` a name that is known later, and `child` and the like a function of the system;
//! - an operator is spelled as in a source, but for the minus sign of a number, `neg`, and steps, `++v` and `v++`; `call:2` is a call with
//!   two arguments, and `list:1` a list of two;
//! - `alone` lays each without result, `value 3` each with its value in a variable, of which 0 is the stack, and `true` and `false` as a
//!   branch where its truth is this, over an instruction;
//! - `insert` lays an instruction of the first two, `call 3` and `call` a call of the first with the others and 5, and `spaces` a call of
//!   a routine of the veneer with all; `apart` lays the first behind the others.
//!
//! The most names, labels, bytes and references may follow the way, with `-` for a number that does not matter. The answer has the first
//! limit that was passed, or the bytes of a routine of 15 locals, where the names that were used have the numbers 1000, 1001 and so on,
//! and these names.
//!
//! **Tables.** A line makes a table under its limits, and has commands with ` | ` before each; a line with the answers to all commands answers
//! it. A text of a word is twelve hexadecimal digits. A value is a number, `nN` the name with number N, or `wTEXT` a word. A number before a
//! command repeats it; the last answer counts. `write FIXUPS BYTES BEFORE` puts the table, behind BEFORE bytes 255, into an area that
//! takes BYTES bytes and then refuses one, with at most FIXUPS fixups; `-` is no limit. The answer is the bytes and the fixups, once
//! where those of an area in one piece and of one in pages are the same.
//!
//! - `dictionary WORDS`: `use TEXT KIND`, with `verbN`, `metaN`, `prep` or `other`, and `plural` behind it; `verb TEXT`, `misfit TEXTS`,
//!   `rank TEXTS`, `len`;
//! - `arrays BYTES`: `open KIND`, `entry VALUE`, `zeros N`, `text DIGITS`, `size`, `later`;
//! - `globals`: `add VALUE`, `len`, `later`;
//! - `verbs VERBS BYTES`: `add`, `extend N PLACE`, `line N PLACE ACTION TOKENS`, `len`, `size`, `later`, `places`. A token is the name of
//!   a noun, words with `/` between them, `f`, `a`, `s` or `r` with a number (a filter, an attribute, a scope, a routine), or `reverse`;
//! - `actions ACTIONS`: `add N`, `fake`, `of N`, `len`; `parsing`: `add N`, `len`;
//! - `world OBJECTS BYTES`: `attribute`, `property KIND VALUE`, `individual`, `class NAME`, `object PARENT NAME` (`pN` object N, `aN`
//!   N arrows), `lost`, `give N VALUE` (or without a value), `value VALUE`, `lose`, `has N`, `hasnt N`, `of N`, `end`, `given N`,
//!   `count`, `size`, `later`, `laters AREA`, `places`, `individuals`. A name is the digits of its bytes; the area that is written comes
//!   behind BEFORE.
//!
//! **Linker.** Lines hold the parts of a story, up to a line that links it:
//!
//! - an area by its name, with the things that are put behind it: bytes as two digits or, two of them, as four, and
//!   numbers that are known later, as `@Name:0`, `@Part:Grammar:0`, `@Word:64D028A594A5`, `@System:CodeOffset`, or an
//!   area's name with a place in it; `*3` behind one of these puts it three times;
//! - `fixup` with an area, a place and a number that is known later, for which no bytes are put;
//! - `names` with the values of names: numbers that are known later, or known ones as `#77`; `parts` with an area and
//!   the places of its parts; `words` with their texts; `last` with the number of the last object;
//! - `link` with version, release and serial number.
//!
//! A story is linked of flat areas, with its fixups in order, and of paged ones, with its fixups in reverse. The answer is the reason why
//! there is no story; or the length of the story and of its parts, and its bytes, two by two, with a count behind those that are repeated.
//!
//! `stdout` has the answers that the Z-Machine Standard 1.1 and the documents of the language require. `tests/tables.py` makes the rows of
//! tables, and computes their answers.
#![tactic(auto)]

mod actions;
mod areas;
mod arrays;
mod code_rows;
mod code_steps;
mod dictionary;
mod expressions;
mod fixups;
mod item_words;
mod items;
mod laid;
mod laying;
mod line_tokens;
mod linking;
mod opcodes;
mod proper;
mod routines;
mod rows;
mod script;
mod spelled;
mod tables;
mod values;
mod verbs;
mod world;
mod writing;

use crate::script::Script;
use std::io::{self, BufRead, BufReader};

/// Writes the answer to a line.
fn answer(rt: &HostRuntime, script: &mut Script, line: &str) -> io::Result<()> {
    let answer = rows::answer(rt.alloc(), script, line)?;
    print!(rt; "{answer}")
}

/// Writes the answer to each line.
fn answer_all(rt: &HostRuntime, script: &mut Script) -> io::Result<()> {
    let alloc = rt.alloc();
    for line in BufReader::new(alloc, rt.reader())?.lines(alloc) {
        answer(rt, script, line?.as_str())?;
    }
    Ok(())
}

fn main(rt: HostRuntime) -> io::Result<()> {
    let mut script = Script::new(rt.alloc());
    answer_all(&rt, &mut script)
}

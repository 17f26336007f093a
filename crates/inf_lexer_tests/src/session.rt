//! The commands of a line, and their answers.
use crate::metered::{Metered, Pace};
use inf_devices::memory_files::MemoryFiles;
use inf_lexer::{EnterFault, LexFault, Lexer, Stack, Token, TokenKind};
use inf_test_lines::{number_at, shown, word};
use inf_text::CharSet;
use percent_encoding::percent_decode;
use std::alloc::{AllocError, Global};
use std::collections::BTreeMap;
use std::str;

/// A folder of sources, and the files of it that are open, one inside the other.
#[derive(Drop)]
pub(crate) struct Session {
    alloc: Global,
    folder: BTreeMap<String, Vec<u8>>,
    files: Metered,
    stack: Stack,
    lexers: Vec<Lexer>,
}

/// The pace that gives all bytes at once, up to the end.
const AT_ONCE: Pace = Pace {
    most: [usize::MAX, usize::MAX],
    reads: usize::MAX,
    is_endless: false,
};

/// Returns the bytes of a word, in which `%` and two digits are one byte.
fn bytes_of(alloc: Global, word: &str) -> Result<Vec<u8>, AllocError> {
    let mut bytes = Vec::new(alloc);
    percent_decode(word.as_bytes()).append_to(&mut bytes)?;
    Ok(bytes)
}

/// Returns `count` times a piece, and a text behind them.
fn source_of(alloc: Global, count: usize, piece: &str, text: &str) -> Result<Vec<u8>, AllocError> {
    let piece = bytes_of(alloc, piece)?;
    let mut source = Vec::new(alloc);
    for _ in 0..count {
        source.extend_from_slice(piece.as_slice())?;
    }
    source.extend_from_slice(bytes_of(alloc, text)?.as_slice())?;
    Ok(source)
}

/// Returns the directories of a word with commas between them, or none.
fn directories_of(alloc: Global, word: Option<&str>) -> Result<Vec<&str>, AllocError> {
    let mut directories = Vec::new(alloc);
    if let Some(word) = word {
        for directory in word.split(',') {
            directories.push(directory)?;
        }
    }
    Ok(directories)
}

impl Session {
    /// Makes a session with an empty folder.
    pub(crate) fn new(alloc: Global) -> Session {
        let empty = MemoryFiles::new(alloc, BTreeMap::new(alloc));
        Session {
            alloc,
            folder: BTreeMap::new(alloc),
            files: Metered::new(alloc, empty, AT_ONCE),
            stack: Stack::new(alloc, CharSet::Ascii, 0),
            lexers: Vec::new(alloc),
        }
    }

    /// Obeys the commands of a line, and returns the answer of each.
    pub(crate) fn answer(&mut self, line: &str) -> Result<String, AllocError> {
        let mut answer = String::new(self.alloc);
        for command in line.split(" | ") {
            if !answer.is_empty() {
                answer.push_str(" | ")?;
            }
            answer.push_str(self.obey(command)?.as_str())?;
        }
        Ok(answer)
    }

    /// Obeys a command, and returns its answer: its name, unless it asks for more.
    fn obey(&mut self, command: &str) -> Result<String, AllocError> {
        let name = word(command, 0);
        match name {
            "!" => return String::from_str(self.alloc, command),
            "clear" => self.folder = BTreeMap::new(self.alloc),
            "source" => self.add_source(word(command, 1), 0, "", word(command, 2))?,
            "long" => self.add_source(
                word(command, 1),
                number_at(command, 2),
                word(command, 3),
                word(command, 4),
            )?,
            "numbers" => self.add_numbers(number_at(command, 1))?,
            "new" => {
                let pace = Pace {
                    most: [number_at(command, 3), number_at(command, 4)],
                    reads: number_at(command, 5),
                    is_endless: word(command, 6) == "endless",
                };
                self.begin(word(command, 1), word(command, 2), pace)?;
            }
            "leave" => self.leave(),
            _ => return self.told(name, command),
        }
        String::from_str(self.alloc, name)
    }

    /// Obeys a command that asks for an answer, and returns that.
    fn told(&mut self, name: &str, command: &str) -> Result<String, AllocError> {
        match name {
            "main" => self.enter_main(word(command, 1)),
            "enter" => self.enter(word(command, 1), command.split(' ').nth(2)),
            "next" => self.next(),
            "rest" => self.rest(),
            "tokens" => self.tokens(command),
            "ahead" => self.ahead(command),
            "many" => self.enter_many(number_at(command, 1)),
            "name" => self.name(word(command, 1)),
            "opened" => shown(self.alloc, &self.files.opened),
            "reads" => shown(self.alloc, &self.files.reads),
            "given" => shown(self.alloc, &self.files.given),
            _ => format!(in self.alloc; "no command: {name}"),
        }
    }

    /// Puts a source into the folder: `count` times a piece, and a text behind them.
    fn add_source(
        &mut self,
        name: &str,
        count: usize,
        piece: &str,
        text: &str,
    ) -> Result<(), AllocError> {
        let source = source_of(self.alloc, count, piece, text)?;
        let name = String::from_str(self.alloc, name)?;
        self.folder.insert(name, source)?;
        Ok(())
    }

    /// Puts `count` empty sources into the folder, which have numbers for names.
    fn add_numbers(&mut self, count: usize) -> Result<(), AllocError> {
        for number in 0..count {
            let name = format!(in self.alloc; "{number}")?;
            self.folder.insert(name, Vec::new(self.alloc))?;
        }
        Ok(())
    }

    /// Begins anew with the sources of the folder.
    fn begin(&mut self, set: &str, limit: &str, pace: Pace) -> Result<(), AllocError> {
        let whole = MemoryFiles::new(self.alloc, self.folder.clone()?);
        self.files = Metered::new(self.alloc, whole, pace);
        let set = match set {
            "ascii" => CharSet::Ascii,
            _ => CharSet::Latin1,
        };
        self.stack = Stack::new(self.alloc, set, limit.parse().unwrap_or(0));
        self.lexers = Vec::new(self.alloc);
        Ok(())
    }

    /// Keeps the lexer of a file that was entered.
    fn entered(&mut self, answer: Result<Lexer, EnterFault>) -> Result<String, AllocError> {
        match answer {
            Ok(lexer) => {
                self.lexers.push(lexer)?;
                String::from_str(self.alloc, "entered")
            }
            Err(fault) => format!(in self.alloc; "{fault:?}"),
        }
    }

    /// Enters a main source.
    fn enter_main(&mut self, name: &str) -> Result<String, AllocError> {
        let answer = self.stack.enter_main(&mut self.files, name);
        self.entered(answer)
    }

    /// Enters the file that a text names in directories with commas between them, or in none.
    fn enter(&mut self, text: &str, directories: Option<&str>) -> Result<String, AllocError> {
        let text = bytes_of(self.alloc, text)?;
        let directories = directories_of(self.alloc, directories)?;
        let answer = self
            .stack
            .enter(&mut self.files, directories.as_slice(), text.as_slice());
        self.entered(answer)
    }

    /// Leaves the innermost file.
    fn leave(&mut self) {
        if self.files.depth > 0 {
            self.stack.leave(&mut self.files);
            let _ = self.lexers.pop();
        }
    }

    /// Reads the next token of the innermost file.
    fn token(&mut self) -> Result<Token, LexFault> {
        if self.files.depth == 0 {
            return Err(LexFault::Read);
        }
        match self.lexers.last_mut() {
            Some(lexer) => lexer.next(&mut self.files),
            None => Err(LexFault::Read),
        }
    }

    /// Returns the spelling of the token that was read last.
    fn spelling(&self) -> &str {
        match self.lexers.last() {
            Some(lexer) => str::from_utf8(lexer.spelling()).unwrap_or("not ASCII"),
            None => "no file",
        }
    }

    /// Reads a token, and returns its kind, its place and its spelling.
    fn next(&mut self) -> Result<String, AllocError> {
        match self.token() {
            Ok(Token { kind, place }) => {
                format!(in self.alloc;
                    "{kind:?} {}:{} {:?}",
                    place.file,
                    place.line,
                    self.spelling()
                )
            }
            Err(fault) => format!(in self.alloc; "{fault:?}"),
        }
    }

    /// Reads a token, and returns its kind and its line, and whether it is the last one: the end,
    /// or a fault.
    fn line_of_next(&mut self) -> Result<(String, bool), AllocError> {
        match self.token() {
            Ok(token) => {
                let is_last = token.kind == TokenKind::End;
                let told = format!(in self.alloc; "{:?} {}", token.kind, token.place.line)?;
                Ok((told, is_last))
            }
            Err(fault) => Ok((format!(in self.alloc; "{fault:?}")?, true)),
        }
    }

    /// Reads all tokens that are left of the innermost file, and returns their kinds and lines.
    fn rest(&mut self) -> Result<String, AllocError> {
        let mut all = String::new(self.alloc);
        for _ in 0..u64::MAX {
            let (told, is_last) = self.line_of_next()?;
            all.push_str(told.as_str())?;
            if is_last {
                break;
            }
            all.push_str(", ")?;
        }
        Ok(all)
    }

    /// Reads all tokens of a text, and returns their kinds and lines.
    fn tokens(&mut self, command: &str) -> Result<String, AllocError> {
        self.add_source("t.inf", 0, "", word(command, 3))?;
        self.begin(word(command, 1), word(command, 2), AT_ONCE)?;
        self.enter_main("t.inf")?;
        self.rest()
    }

    /// Reads names of one length, and returns whether no more bytes than the command allows are
    /// ever given ahead.
    fn ahead(&mut self, command: &str) -> Result<String, AllocError> {
        let (length, most) = (number_at(command, 2), number_at(command, 3));
        let mut end: usize = 0;
        for _ in 0..number_at(command, 1) {
            let is_name = matches!(self.token(), Ok(token) if token.kind == TokenKind::Name);
            end = end.saturating_add(length);
            let given = self.files.given;
            if !is_name || given.saturating_add(1) < end || given > end.saturating_add(most) {
                return format!(in self.alloc; "{given} bytes at {end}");
            }
        }
        String::from_str(self.alloc, "kept")
    }

    /// Enters and leaves sources that have numbers for names.
    fn enter_many(&mut self, count: usize) -> Result<String, AllocError> {
        for number in 0..count {
            let name = format!(in self.alloc; "{number}")?;
            let answer = self.enter_main(name.as_str())?;
            if answer.as_str() != "entered" {
                return Ok(answer);
            }
            self.leave();
        }
        String::from_str(self.alloc, "entered")
    }

    /// Returns the name of a file.
    fn name(&self, number: &str) -> Result<String, AllocError> {
        let name = match number.parse() {
            Ok(file) => self.stack.name(file),
            Err(_) => None,
        };
        String::from_str(self.alloc, name.unwrap_or("none"))
    }
}

//! The routines of the veneer: the compiler supplies them where a source uses them and has none of its own.
ghost use Rattle.std.specs.Prelude.{◌≡◌, ℕ, ◌≤◌, ◌<◌, ◌⊎◌, List, IfOk, IfSome, Ok, OnOk, false, is_none, is_some, length, true};
ghost use Rattle.inf_devices.specs.Files.{Openings, Sources};
ghost use Rattle.inf_session.specs.{Choices.chosen, Choices.most_quoted, Promises.Supplies, Promises.fault_in, Session.rested};
ghost use Rattle.inf_session.specs.{Session.stepped};
ghost use Rattle.inf_session.specs.Standing.{came_to, ended, next_of, state};
ghost use Rattle.inf_session.specs.Veneer.{in_text, is_wanted, most_texts, next_supplied, supplied, text_begun, text_read, text_turns};
ghost use Rattle.inf_session.specs.Veneer.{veneer_text};

use crate::session::{Session, Step};
use crate::tokens::take;
use inf_compilation::context::Context;
use inf_conditionals::conditionals::Conditionals;
use inf_devices::sinks::Sink;
use inf_ending::faults::Fault;
use inf_names::symbols::Found;
use inf_reader::reader::Reader;
use inf_settings::bounds::Bounds;
use inf_settings::setting::Setting;
use inf_text_lexer::TextLexer;
use inf_unit::messages::VENEER_FILE;
use inf_veneer::{COUNT, veneer, veneer_name};
use std::alloc::AllocError;

/// Returns the text of the veneer with the number `number`; an empty one where there is none.
fn text_of(number: usize) -> &'static [u8]
    ensures text { result.now ≡ veneer_text number }
    ensures few { length result.now ≤ 1000 }
{
    match veneer(number) {
        Some(text) => text,
        None => b"",
    }
}

impl<'a, B: Bounds> Session<'a, B> {
    /// Reads the rest of the veneer: each routine that is used and not declared, in their order. The messages of a routine are
    /// written at its end. Behind a fatal message none is read.
    pub fn supply<M: Sink>(&mut self, messages: &mut M) -> Result<(), Fault>
        ensures supplied { Supplies M.Sink (supplied B.most) messages.old messages.new self.old self.new (fault_in result) }
    {
        let mut was_read = true;
        while was_read {
            was_read = self.read_veneer(messages)?;
        }
        Ok(())
    }

    /// Reads the next routine of the veneer that is used and not declared, and returns the result of this step.
    pub(crate) fn step_veneer<M: Sink>(&mut self, messages: &mut M) -> Result<Step, Fault>
        ensures supplied { Supplies M.Sink (next_supplied B.most) messages.old messages.new self.old self.new (fault_in result) }
        ensures came { IfOk result (λ step. step ≡ came_to (is_none (next_of self.old)) self.new) }
        ensures ends { IfOk result (λ step. (step ≡ Step.More → ⊥) → is_none (next_of self.new) ≡ true) }
        ensures again { is_none (next_of self.old) ≡ true →
            (result ≡ Ok (came_to true self.old)) × ((self.new ≡ self.old) × (messages.new ≡ messages.old)) }
        ensures ended { ended self.old ≡ true → OnOk result (ended self.new ≡ true) }
        ensures falls { OnOk result ((is_none (next_of self.new) ≡ true) ⊎ ((self.old.passed < self.new.passed)
            × (self.new.passed ≤ most_texts))) }
        ensures longest { let most = most_quoted (chosen self.old.setup) in self.old.quoted ≤ most → OnOk result (self.new.quoted ≤ most) }
    {
        let was_read = self.read_veneer(messages)?;
        Ok(self.came_to(!was_read))
    }

    /// Reads the next routine of the veneer that is used and not declared, and writes its messages at its end. Behind a fatal
    /// message there is no routine to read. Returns whether a routine was read; where none was, nothing has changed.
    fn read_veneer<M: Sink>(&mut self, messages: &mut M) -> Result<bool, Fault>
        ensures supplied { Supplies M.Sink (next_supplied B.most) messages.old messages.new self.old self.new (fault_in result) }
        ensures came { IfOk result (λ was_read. was_read ≡ is_some (next_of self.old)) }
        ensures behind { IfOk result (λ was_read. was_read ≡ true → (self.old.passed < self.new.passed) × (self.new.passed ≤ most_texts)) }
        ensures same { is_some (next_of self.old) ≡ false → (result ≡ Ok false) × ((self.new ≡ self.old) × (messages.new ≡ messages.old)) }
        ensures ended { ended self.old ≡ true → OnOk result (ended self.new ≡ true) }
        ensures longest { let most = most_quoted (chosen self.old.setup) in self.old.quoted ≤ most → OnOk result (self.new.quoted ≤ most) }
    {
        match self.next_wanted() {
            Some(number) => {
                self.read_text(number, messages)?;
                Ok(true)
            }
            None => Ok(false),
        }
    }

    /// Returns the number of the next routine of the veneer that is used and not declared; `None` behind a fatal message, or where
    /// there is no such routine.
    fn next_wanted(&self) -> Option<usize>
        ensures next { result ≡ next_of self.now }
        ensures behind { IfSome result (λ n. (self.now.passed < n) × (n ≤ most_texts)) }
    {
        if self.progress.work.report.is_over() {
            return None;
        }
        let mut number = self.passed;
        while number < COUNT {
            number += 1;
            if self.wants(number) {
                return Some(number);
            }
        }
        None
    }

    /// Returns whether the routine of the veneer with the number `number` is used and not declared.
    fn wants(&self, number: usize) -> bool
        ensures { result ≡ is_wanted number self.now.progress.work.output.names }
    {
        match veneer_name(number) {
            Some(name) => matches!(self.progress.work.output.names.look(name), Found::Used),
            None => false,
        }
    }

    /// Reads the text of the veneer with the number `number`, and writes its messages.
    fn read_text<M: Sink>(&mut self, number: usize, messages: &mut M) -> Result<(), Fault>
        requires { number ≤ most_texts }
        ensures read { Supplies M.Sink (λ o. text_read B.most o number) messages.old messages.new self.old self.new (fault_in result) }
        ensures passed { OnOk result (self.new.passed ≡ number) }
        ensures over { OnOk result (self.new.is_over ≡ true) }
        ensures longest { let most = most_quoted (chosen self.old.setup) in self.old.quoted ≤ most → OnOk result (self.new.quoted ≤ most) }
    {
        let text = text_of(number);
        let set = self.open_files.characters();
        let limit = self.setup.settings.of(Setting::QuotedText);
        let line = number as u32;
        let mut lexer = TextLexer::new(self.alloc, set, limit, VENEER_FILE, line, text)?;
        self.begin_text()?;
        self.take_text(&mut lexer, text.len() + 1)?;
        self.is_over = true;
        self.passed = number;
        self.progress.work.report.flush(messages)?;
        Ok(())
    }

    /// Begins a text of the veneer, where nothing of the source is open: neither a conditional nor a unit.
    fn begin_text(&mut self) -> Result<(), AllocError>
        ensures begun { (sources : Sources) → (start now : Openings) → (told : List ℕ) →
            OnOk result (state sources start now self.new told ≡ text_begun (state sources start now self.old told)) }
        ensures files { self.new.open_files ≡ self.old.open_files }
        ensures setup { self.new.setup ≡ self.old.setup }
        ensures quoted { self.new.quoted ≡ self.old.quoted }
    {
        let most = self.conditionals.most_tokens;
        let declared = self.progress.work.output.names.declared();
        self.conditionals = Conditionals::new(self.alloc);
        self.conditionals.end_piece(
            declared,
            self.open_files.names(),
            &mut self.progress.work.report,
        )?;
        self.progress.work.most_tokens = self.progress.work.most_tokens.max(most);
        self.progress.work.is_system = false;
        self.progress.reader = Reader::new(self.alloc);
        self.is_over = false;
        Ok(())
    }

    /// Takes the tokens of a text, at most `most`, up to its end or a fatal message.
    fn take_text(&mut self, lexer: &mut TextLexer<'_>, most: usize) -> Result<(), AllocError>
        requires { self.old.open_files.lexer.set ≡ lexer.old.set }
        ensures turned { (sources : Sources) → (start now : Openings) → (told : List ℕ) →
            OnOk result (in_text lexer.new (state sources start now self.new told)
            ≡ text_turns B.most (chosen self.old.setup) most (in_text lexer.old (state sources start now self.old told))) }
        ensures longest { self.old.quoted ≤ lexer.old.limit → OnOk result (self.new.quoted ≤ lexer.old.limit) }
        ensures files { self.new.open_files ≡ self.old.open_files }
        ensures setup { self.new.setup ≡ self.old.setup }
    {
        let mut left = most;
        while left > 0 {
            if self.has_ended() {
                return Ok(());
            }
            self.turn_text(lexer)?;
            left -= 1;
        }
        Ok(())
    }

    /// Takes the next token of a text.
    fn turn_text(&mut self, lexer: &mut TextLexer<'_>) -> Result<(), AllocError>
        requires { self.old.open_files.lexer.set ≡ lexer.old.set }
        ensures turned { (sources : Sources) → (start now : Openings) → (told : List ℕ) →
            OnOk result (in_text lexer.new (state sources start now self.new told)
            ≡ rested (stepped B.most (chosen self.old.setup) (in_text lexer.old (state sources start now self.old told)))) }
        ensures longest { self.old.quoted ≤ lexer.old.limit → OnOk result (self.new.quoted ≤ lexer.old.limit) }
        ensures lexer { OnOk result ((lexer.new.set ≡ lexer.old.set) × (lexer.new.limit ≡ lexer.old.limit)) }
        ensures files { self.new.open_files ≡ self.old.open_files }
        ensures setup { self.new.setup ≡ self.old.setup }
    {
        let token = lexer.next()?;
        let context = Context {
            files: self.open_files.names(),
            set: self.open_files.characters(),
            settings: self.setup.settings,
        };
        self.quoted = take(
            &context,
            token,
            lexer.spelling(),
            self.quoted,
            &mut self.conditionals,
            &mut self.progress,
        )?;
        self.rest()
    }
}

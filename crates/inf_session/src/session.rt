//! The reading of a main source and of the files that it includes.
ghost use Rattle.std.specs.Prelude.{◌≡◌, ℕ, ◌<◌, ◌≤◌, ◌⊎◌, List, IfErr, IfOk, IsErrOf, None, OnErr, OnOk, false, length, true};
ghost use Rattle.inf_devices.specs.Files.{Openings, Rose, Sources};
ghost use Rattle.inf_lexer.specs.Names.{can_name};
ghost use Rattle.inf_reader.specs.Reading.{is_mode_ended};
ghost use Rattle.inf_sources.specs.Calls.{StaysFit};
ghost use Rattle.inf_session.specs.{Choices.chosen, Choices.most_quoted, Weights.GoesOn, Weights.room, Weights.weight};
ghost use Rattle.inf_session.specs.Promises.{MakesPart, MakesTurn, MakesTurns, PartOfTurn, Stepped, Wrote, at_inclusion, fault_in, halt_in};
ghost use Rattle.inf_session.specs.Promises.{in_inclusion, in_token, nowhere};
ghost use Rattle.inf_session.specs.Session.{carried_out, followed, included, left, rested, stepped};
ghost use Rattle.inf_session.specs.Standing.{AreWithin, Begins, HasRoom, IsBounded, IsSet, LaterWithin, came_to, ended, is_fatal, parted};
ghost use Rattle.inf_session.specs.Standing.{resting, state, used_by};
ghost use Rattle.inf_ending.specs.{Delivered.Appends, Delivered.Delivers, Delivered.EndsCleanOf, Delivered.TakesFront, Delivered.story_in};
ghost use Rattle.inf_ending.specs.Ending.{finished};
ghost use Rattle.inf_ending.specs.Faults.{Caused, HidesNoFailure, IfRead, fault_of};
ghost use Rattle.inf_settings.specs.{Bounds.AreSet, Settings.all_settings};
ghost use Rattle.inf_compilation.specs.Works.{work as work_of};

use crate::rooms::{give_room, make_room};
use crate::setup::Setup;
use crate::tokens::take;
use inf_compilation::context::Context;
use inf_conditionals::conditionals::Conditionals;
use inf_devices::files::Files;
use inf_devices::sinks::Sink;
use inf_ending::compiled::{Compiled, Status, conclude};
use inf_ending::faults::{Fault, Halt, fault_of, lose};
use inf_lexer::{LexFault, Place};
use inf_reader::progress::Progress;
use inf_reader::recovery::Recovery;
use inf_report::messages::Message;
use inf_settings::bounds::Bounds;
use inf_sources::IncludeFault;
use inf_sources::open_files::{Included, OpenFiles};
use inf_unit::directives::Request;
use inf_unit::messages::location;
use std::alloc::{AllocError, Global};

/// The reading of a main source and of the files that it includes, and the work that was compiled of them so far.
#[derive(Drop)]
pub struct Session<'a, B: Bounds> {
    pub(crate) alloc: Global,
    pub(crate) setup: Setup<'a>,
    pub open_files: OpenFiles,
    pub(crate) conditionals: Conditionals,
    pub progress: Progress<B>,
    /// Tells whether all reading has ended but for that of the veneer.
    pub(crate) is_over: bool,
    /// The bytes between the quotes of the longest quoted token so far.
    pub(crate) quoted: usize,
    /// The number of the last routine of the veneer that was read; 0 before the first.
    pub(crate) passed: usize,
    /// Room for the name of the innermost file, which is asked for before the file is read.
    pub(crate) room: String,
}

/// The result of a step of the reading.
#[derive(Clone, Copy)]
pub enum Step {
    /// A part was read.
    More,
    /// All was read before, up to the end of the main source or a directive that ends all, and the veneer.
    End,
    /// A fatal message came.
    Fatal,
}

impl<'a, B: Bounds> Session<'a, B> {
    /// Makes a session by `setup` behind the head of the main source of `open_files`, of which no token was read yet. Where no
    /// memory is left `open_files` are given back.
    pub fn new(
        alloc: Global,
        setup: Setup<'a>,
        open_files: OpenFiles,
    ) -> Result<Session<'a, B>, OpenFiles>
        requires { AreSet B.most setup.settings.now }
        ensures files { IfOk result (λ session. session.open_files ≡ open_files) }
        ensures setup { IfOk result (λ session. session.setup ≡ setup.entry) }
        ensures begins { IfOk result (λ session. Begins (chosen setup.entry) session) }
        ensures bounded { IfOk result (λ session. IsBounded session) }
        ensures back { IfErr result (λ files. files ≡ open_files) }
    {
        let Ok(progress) = setup.begin(alloc, open_files.names()) else {
            return Err(open_files);
        };
        Ok(Session {
            alloc,
            setup,
            open_files,
            conditionals: Conditionals::new(alloc),
            progress,
            is_over: false,
            quoted: 0,
            passed: 0,
            room: String::new(alloc),
        })
    }

    /// Returns whether no more of the source is read.
    pub(crate) fn has_ended(&self) -> bool
        ensures { result ≡ ended self.now }
    {
        self.is_over || self.progress.has_ended()
    }

    /// Reads to the end of the main source, to a fatal message, or to a directive that ends all. Each message is written
    /// as soon as it is found.
    pub fn read<F: Files, M: Sink>(&mut self, files: &mut F, messages: &mut M) -> Result<(), Fault>
        requires is_open { length self.old.open_files.outer < F.depth files.old }
        requires goes { self.old.open_files.lexer.has_failed ≡ false }
        requires set { IsSet self.old }
        ensures called { MakesTurns F.Files M.Sink B.most files.old files.new messages.old messages.new self.old self.new
            (fault_in result) }
        ensures wrote { Wrote M.Sink messages.old messages.new (fault_in result) }
        ensures ended { OnOk result (ended self.new ≡ true) }
        ensures is_open { length self.new.open_files.outer < F.depth files.new }
    {
        while !self.has_ended() {
            self.read_part(files, messages)?;
        }
        Ok(())
    }

    /// Reads one part of the source, as `step` does. Behind the end of the source, or a fatal message, a further call returns the
    /// same again and changes nothing.
    pub(crate) fn read_part<F: Files, M: Sink>(
        &mut self,
        files: &mut F,
        messages: &mut M,
    ) -> Result<Step, Fault>
        requires is_open { length self.old.open_files.outer < F.depth files.old }
        requires goes { self.old.open_files.lexer.has_failed ≡ false }
        requires set { IsSet self.old }
        ensures called { MakesPart F.Files M.Sink B.most files.old files.new messages.old messages.new self.old self.new (fault_in result) }
        ensures wrote { Wrote M.Sink messages.old messages.new (fault_in result) }
        ensures stepped { Stepped ended (λ s. weight s.open_files) files.old files.new messages.old messages.new self.old self.new result }
    {
        if self.has_ended() {
            return Ok(self.came_to(true));
        }
        make_room(&mut self.room, &self.open_files)?;
        let mut lost = None;
        if let Err(halt) = self.turn(files, messages, &mut lost) {
            return Err(fault_of(halt, lost));
        }
        while !self.has_parted() {
            if let Err(halt) = self.turn(files, messages, &mut lost) {
                return Err(fault_of(halt, lost));
            }
        }
        Ok(self.came_to(false))
    }

    /// Ends the compilation behind the last step: writes the last messages, and returns the story, where no error was found. The
    /// serial number has six digits. The files that are still open are given back.
    ///
    /// The faults are those of `translate`, but for that of reading and that of the story. Memory is taken only before the first message is
    /// written.
    pub fn finish<M: Sink>(
        self,
        serial: &[u8; 6],
        messages: &mut M,
    ) -> (OpenFiles, Result<Compiled, Fault>)
        ensures files { result.0 ≡ self.entry.open_files }
        ensures ok { IfOk result.1 (λ compiled. Delivers (finished B.most serial.now self.entry.open_files.nest.names
            (work_of self.entry.progress.work)) compiled (M.taken messages.old) (M.taken messages.new)) }
        ensures err { OnErr result.1 (TakesFront (finished B.most serial.now self.entry.open_files.nest.names
            (work_of self.entry.progress.work)).messages (M.taken messages.old) (M.taken messages.new)) }
        ensures errors { IfOk result.1 (λ compiled. compiled.status ≡ Status.Errors → compiled.story ≡ None) }
        ensures clean { IfOk result.1 (λ compiled. compiled.status ≡ Status.Success → EndsCleanOf B.most serial.now
            self.entry.open_files.nest.names (work_of self.entry.progress.work) (story_in compiled)
            (M.taken messages.old) (M.taken messages.new)) }
        ensures fault { IfErr result.1 (λ fault. Caused fault (λ name. ⊥) (Rose (M.failures messages.old) (M.failures messages.new))) }
        ensures memory { IsErrOf result.1 Fault.Memory → messages.new ≡ messages.old }
        ensures wrote { Appends M.Sink messages.old messages.new
            × HidesNoFailure result.1 (M.failures messages.old) (M.failures messages.new) }
    {
        let Session {
            alloc,
            open_files,
            progress,
            ..
        } = self;
        let compiled = conclude(alloc, open_files.names(), serial, progress.work, messages);
        (open_files, compiled)
    }

    /// Returns whether a part has ended and no other has begun.
    fn has_parted(&self) -> bool
        ensures { result ≡ parted self.now }
    {
        self.has_ended() || (self.progress.is_between() && self.conditionals.may_part())
    }

    /// Returns the result of a step that ended here, where all was read before the step if `had_ended`.
    pub(crate) fn came_to(&self, had_ended: bool) -> Step
        ensures { result ≡ came_to had_ended self.now }
    {
        if self.progress.work.report.is_over() {
            Step::Fatal
        } else if had_ended {
            Step::End
        } else {
            Step::More
        }
    }

    /// Returns whether the reading is between two directives, and in no conditional one.
    fn is_resting(&self) -> bool
        ensures { result ≡ resting self.now }
    {
        self.progress.is_between() && self.conditionals.is_resting()
    }

    /// Returns, for each setting in their order, the amount so far that it bounds: the bytes of the longest quoted token, the
    /// tokens of the longest expression, the names, the most labels of a routine, the words, objects, verbs and actions, the bytes
    /// of grammar, properties, arrays, low strings, code and strings, and the references. None is cut. Unless a fatal message came,
    /// no amount is above its setting where tokens, labels and references are not, which are compared where an expression or a unit
    /// ends; `inf_limit_laws` shows that these are not, either.
    pub fn held(&self) -> [usize; 15]
        ensures counts { result ≡ used_by self.now }
        ensures within { let settings = (chosen self.now.setup).settings in
            AreSet B.most settings → IsBounded self.now → is_fatal self.now ≡ false → LaterWithin settings self.now
            → AreWithin result all_settings settings }
    {
        let work = &self.progress.work;
        let output = &work.output;
        let tables = &output.tables;
        let mut held = [0; 15];
        held[0] = self.quoted;
        held[1] = work.most_tokens.max(self.conditionals.most_tokens);
        held[2] = output.names.len();
        held[3] = work.most_labels;
        held[4] = tables.dictionary.len();
        held[5] = tables.world.object_count();
        held[6] = tables.verbs.len();
        held[7] = tables.actions.len();
        held[8] = tables.verbs.size();
        held[9] = tables.world.property_bytes();
        held[10] = tables.arrays.size();
        held[11] = tables.low_strings.len();
        held[12] = output.code.count();
        held[13] = output.strings.len();
        held[14] = tables.references_with(output.code.references());
        held
    }

    /// Makes one turn: takes a token, does as it asks, and writes the messages.
    fn turn<F: Files, M: Sink>(
        &mut self,
        files: &mut F,
        messages: &mut M,
        lost: &mut Option<Fault>,
    ) -> Result<(), Halt>
        requires is_open { length self.old.open_files.outer < F.depth files.old }
        requires goes { self.old.open_files.lexer.has_failed ≡ false }
        requires set { IsSet self.old }
        requires room { HasRoom self.old.room self.old.open_files }
        ensures called { MakesTurn F.Files M.Sink B.most files.old files.new messages.old messages.new self.old self.new
            (halt_in result lost.new) }
        ensures wrote { Wrote M.Sink messages.old messages.new (halt_in result lost.new) }
        ensures falls { OnOk result ((ended self.new ≡ true) ⊎ (weight self.new.open_files < weight self.old.open_files)) }
        ensures longest { let most = most_quoted (chosen self.old.setup) in self.old.quoted ≤ most → OnOk result (self.new.quoted ≤ most) }
        ensures unread { IfErr result (λ halt. IfRead (fault_of halt lost.new) (λ name. M.taken messages.new ≡ M.taken messages.old)) }
        ensures room { OnOk result (HasRoom self.new.room self.new.open_files) }
    {
        self.take_token(files, lost)?;
        self.follow(files, lost)?;
        self.progress.work.report.flush(messages)?;
        Ok(())
    }

    /// Takes the next token of the innermost file.
    fn take_token<F: Files>(&mut self, files: &mut F, lost: &mut Option<Fault>) -> Result<(), Halt>
        requires is_open { length self.old.open_files.outer < F.depth files.old }
        requires goes { self.old.open_files.lexer.has_failed ≡ false }
        requires room { HasRoom self.old.room self.old.open_files }
        ensures called { PartOfTurn F.Files (λ sources. stepped B.most) in_token files.old files.new self.old self.new
            (halt_in result lost.new) }
        ensures moves { OnOk result ((is_mode_ended self.new.progress.reader.mode ≡ true) ⊎
            (room self.new.open_files.lexer < room self.old.open_files.lexer)) }
        ensures same { (self.new.open_files.nest ≡ self.old.open_files.nest)
            × ((self.new.open_files.outer ≡ self.old.open_files.outer) × (self.new.is_over ≡ self.old.is_over)) }
        ensures few { OnOk result (self.new.open_files.lexer.window.given ≤ 16777216) }
        ensures longest { let most = self.old.open_files.nest.limit in self.old.quoted ≤ most → OnOk result (self.new.quoted ≤ most) }
        ensures room { OnOk result (HasRoom self.new.room self.new.open_files) }
    {
        let token = match self.open_files.next(files) {
            Ok(token) => token,
            Err(LexFault::Memory) => return Err(Halt::Memory),
            Err(LexFault::Read) => {
                let name = give_room(self.alloc, &mut self.room, &self.open_files);
                return Err(lose(name, lost));
            }
        };
        let context = Context {
            files: self.open_files.names(),
            set: self.open_files.characters(),
            settings: self.setup.settings,
        };
        self.quoted = take(
            &context,
            token,
            self.open_files.spelling(),
            self.quoted,
            &mut self.conditionals,
            &mut self.progress,
        )?;
        Ok(())
    }

    /// Goes on behind a token: does as a directive asks, or leaves a file that has ended, and tells the conditionals that had to end here.
    fn follow<F: Files>(&mut self, files: &mut F, lost: &mut Option<Fault>) -> Result<(), Halt>
        requires is_open { length self.old.open_files.outer < F.depth files.old }
        requires goes { self.old.open_files.lexer.has_failed ≡ false }
        requires set { IsSet self.old }
        requires room { HasRoom self.old.room self.old.open_files }
        ensures called { PartOfTurn F.Files followed at_inclusion files.old files.new self.old self.new (halt_in result lost.new) }
        ensures goes_on { OnOk result ((ended self.new ≡ true) ⊎ GoesOn (is_mode_ended self.old.progress.reader.mode) self.old.open_files
            self.new.open_files) }
        ensures quoted { OnOk result (self.new.quoted ≡ self.old.quoted) }
        ensures room { OnOk result (HasRoom self.new.room self.new.open_files) }
    {
        self.carry_out(files, lost)?;
        self.rest()?;
        Ok(())
    }

    /// Does as a directive asks of the reading that ended with the last token. At the end of an included file reading goes on in
    /// the file that includes it.
    fn carry_out<F: Files>(&mut self, files: &mut F, lost: &mut Option<Fault>) -> Result<(), Halt>
        requires is_open { length self.old.open_files.outer < F.depth files.old }
        requires goes { self.old.open_files.lexer.has_failed ≡ false }
        requires set { IsSet self.old }
        requires room { HasRoom self.old.room self.old.open_files }
        ensures called { PartOfTurn F.Files carried_out at_inclusion files.old files.new self.old self.new (halt_in result lost.new) }
        ensures goes_on { OnOk result ((ended self.new ≡ true) ⊎ GoesOn (is_mode_ended self.old.progress.reader.mode) self.old.open_files
            self.new.open_files) }
        ensures quoted { OnOk result (self.new.quoted ≡ self.old.quoted) }
        ensures room { OnOk result (HasRoom self.new.room self.new.open_files) }
    {
        if self.progress.work.report.is_over() {
            return Ok(());
        }
        if matches!(self.progress.reader.mode, Recovery::Ended) {
            return self.leave(files);
        }
        if !self.progress.work.asks() {
            return Ok(());
        }
        match self.progress.work.take_asked() {
            Request::Include { text, unit } => self.include(files, text.as_slice(), unit, lost),
            Request::End => {
                self.is_over = true;
                Ok(())
            }
            Request::Characters(set) => {
                self.open_files.set_characters(set);
                Ok(())
            }
            Request::Nothing => Ok(()),
        }
    }

    /// Tells the conditionals that are open in a directive, behind its end.
    pub(crate) fn rest(&mut self) -> Result<(), AllocError>
        ensures rested { (sources : Sources) → (start now : Openings) →
            OnOk result ((told : List ℕ) → state sources start now self.new told ≡ rested (state sources start now self.old told)) }
        ensures ends { ended self.old ≡ true → ended self.new ≡ true }
        ensures files { self.new.open_files ≡ self.old.open_files }
        ensures room { self.new.room ≡ self.old.room }
        ensures setup { self.new.setup ≡ self.old.setup }
        ensures quoted { OnOk result (self.new.quoted ≡ self.old.quoted) }
    {
        if self.has_ended() || !self.is_resting() {
            return Ok(());
        }
        let declared = self.progress.work.output.names.declared();
        self.conditionals.end_piece(
            declared,
            self.open_files.names(),
            &mut self.progress.work.report,
        )
    }

    /// Enters the file that the text of an inclusion names, or tells, at the place of its unit, the reason why no file is entered.
    #[inline(never)]
    fn include<F: Files>(
        &mut self,
        files: &mut F,
        text: &[u8],
        unit: Place,
        lost: &mut Option<Fault>,
    ) -> Result<(), Halt>
        requires goes { self.old.open_files.lexer.has_failed ≡ false }
        requires set { IsSet self.old }
        requires room { HasRoom self.old.room self.old.open_files }
        ensures called { PartOfTurn F.Files (λ sources o. included sources o unit text.now) (in_inclusion text.now) files.old files.new
            self.old self.new (halt_in result lost.new) }
        ensures goes_on { OnOk result ((ended self.new ≡ true) ⊎ GoesOn false self.old.open_files self.new.open_files) }
        ensures quoted { OnOk result (self.new.quoted ≡ self.old.quoted) }
        ensures room { OnOk result (HasRoom self.new.room self.new.open_files) }
    {
        let told = String::from_str(self.alloc, shown(text))?;
        let mut conditionals = self.conditionals.take_among();
        let message = match self.open_files.include(
            files,
            self.setup.directories,
            text,
            &mut conditionals,
            &mut self.progress.work.is_system,
        ) {
            Ok(Included::Entered) => {
                make_room(&mut self.room, &self.open_files)?;
                return Ok(());
            }
            Ok(Included::NotThere) => Message::NoInclude(text),
            Ok(Included::TooDeep) => Message::TooManyFiles,
            Err(IncludeFault::Memory) => return Err(Halt::Memory),
            Err(IncludeFault::Device) => return Err(lose(told, lost)),
        };
        self.conditionals.give_among(conditionals);
        let at = location(self.open_files.names(), unit);
        self.progress.work.report.fatal(at, &message)?;
        Ok(())
    }

    /// Leaves a file at its end: tells the conditionals that are open in it. An included file is closed, and reading goes on in the
    /// one that includes it.
    #[inline(never)]
    fn leave<F: Files>(&mut self, files: &mut F) -> Result<(), Halt>
        requires is_open { length self.old.open_files.outer < F.depth files.old }
        requires set { IsSet self.old }
        requires room { HasRoom self.old.room self.old.open_files }
        requires at_end { is_mode_ended self.old.progress.reader.mode ≡ true }
        ensures called { PartOfTurn F.Files (λ sources o. left) nowhere files.old files.new self.old self.new (halt_in result None) }
        ensures goes_on { OnOk result ((ended self.new ≡ true) ⊎ GoesOn true self.old.open_files self.new.open_files) }
        ensures memory { IfErr result (λ halt. halt ≡ Halt.Memory) }
        ensures goes { self.old.open_files.lexer.has_failed ≡ false → self.new.open_files.lexer.has_failed ≡ false }
        ensures quoted { OnOk result (self.new.quoted ≡ self.old.quoted) }
        ensures room { OnOk result (HasRoom self.new.room self.new.open_files) }
        ensures fits { StaysFit F.Files files.old files.new self.old.open_files }
    {
        self.conditionals
            .end_file(self.open_files.names(), &mut self.progress.work.report)?;
        let Some((conditionals, is_system)) = self.open_files.leave(files) else {
            return Ok(());
        };
        self.conditionals.give_among(conditionals);
        self.progress.work.is_system = is_system;
        self.progress.reader.mode = Recovery::Reads;
        make_room(&mut self.room, &self.open_files)?;
        Ok(())
    }
}

/// Returns the text of an inclusion as a string: it is of ASCII where it can name a file; `?` where it is no UTF-8.
fn shown(text: &[u8]) -> &str
    ensures { can_name text.now ≡ true → result.now ≡ text.now }
{
    match str::from_utf8(text) {
        Ok(text) => text,
        Err(_) => "?",
    }
}

//! Output that units are laid into.
ghost use Rattle.std.specs.Prelude.{◌≡◌, ◌≤◌, [], IfOk, None, OnErr, OnOk, length, true};
ghost use Rattle.inf_code.specs.Code.{fault_closed, full_opened};
ghost use Rattle.inf_dictionary.specs.Words.{add_fault, word_of};
ghost use Rattle.inf_names.specs.{Symbols.declare_fault, Symbols.refer_fault, declared.meanings.Meaning.Meaning as Standing};
ghost use Rattle.inf_output.specs.{Strings.fits, Veneer.name_of};
ghost use Rattle.inf_output.specs.Output.{begun, closed, code_closed, declared, found_simple, full, low_string_at, opened, passed_table};
ghost use Rattle.inf_output.specs.Output.{past_of, referred, referred_as, routine, simple_by, standing_simple, string_at, symbols_passed};
ghost use Rattle.inf_output.specs.Output.{used, with_low_text, with_scale, with_text, with_word};
ghost use Rattle.inf_tables.specs.LowStrings.{low_fits};

use crate::items::Items;
use crate::operands::Simple;
use crate::past::Past;
use crate::strings::Strings;
use crate::texts::Texts;
use crate::veneer::Veneer;
use inf_area::{AreaName, Scale, Target};
use inf_assembler::{CloseFault, GrowFault, Limit as CodeLimit, RoutineKind};
use inf_code::code::Code;
use inf_names::meanings::Meaning;
use inf_names::symbols::{DeclareFault, Found, ReferFault, Symbols};
use inf_scanner::Place;
use inf_settings::bounds::{Bounds, Unbounded};
use inf_settings::setting::Setting;
use inf_tables::{Tables, WordFault, WordUse};
use std::alloc::{AllocError, Global};
use std::marker::Model;

/// Output that the units of a routine are laid into.
pub struct Output<B: Bounds> {
    pub code: Code<B>,
    pub strings: Strings<B>,
    pub tables: Tables<B>,
    pub names: Symbols<Place, B>,
    /// Packing of texts.
    pub texts: Texts,
    /// The actions that appeared, but fake ones: each is declared by its name behind two signs, with its number.
    pub seen: Symbols<Place, Unbounded>,
    /// The place of the first token of the unit at hand, where routines of the veneer are used.
    pub first: Place,
    /// The number of the next label of the routine at hand.
    pub next: u32,
    /// Room left of each limit once one was passed. From then on code is not laid any more, but counted.
    pub past: Option<Past>,
    /// The items of code that is kept apart and comes later: code is laid there, while there are any.
    pub kept: Option<Items>,
}

impl<B: Bounds> Model for Output<B> {
    ghost use Rattle.inf_output.specs.Output.{Out};

    ghost Value = { Out };

    ghost view = { λ o. record {
      code = o.code;
      strings = o.strings;
      tables = o.tables;
      names = o.names;
      texts = o.texts;
      seen = o.seen;
      first = o.first;
      next = o.next;
      past = o.past;
      kept = o.kept;
    } };
}

/// One call at each exit of a function that owns an output, in place of a call for each part of each part.
impl<B: Bounds> Drop for Output<B> {
    fn drop(self) {
        let _parts = self.into_parts();
    }
}

/// Parts of a story beside its code.
#[derive(Drop)]
pub struct Contents<B: Bounds> {
    pub names: Symbols<Place, B>,
    pub strings: Strings<B>,
    pub tables: Tables<B>,
}

/// Returns the operand of a name whose number is known, or that is a variable; `None` for any other `meaning`.
fn standing(meaning: Meaning) -> Option<Simple>
    ensures { result ≡ standing_simple meaning }
{
    match meaning {
        Meaning::Variable(number) => Some(Simple::Variable(number)),
        Meaning::Attribute(number) | Meaning::Property { number, .. } => {
            Some(Simple::Known(number as u16))
        }
        Meaning::Number(number)
        | Meaning::IndividualProperty(number)
        | Meaning::Object(number)
        | Meaning::Class(number)
        | Meaning::FakeAction(number) => Some(Simple::Known(number)),
        Meaning::Text(_)
        | Meaning::Word(_)
        | Meaning::LowString(_)
        | Meaning::Array(_)
        | Meaning::Routine(_)
        | Meaning::PackedAddress(_)
        | Meaning::Function(_) => None,
    }
}

/// Returns the operand of a name: `standing` if there is one, and else a reference by its number among the names.
fn simple(standing: Option<Simple>, number: Option<usize>) -> Simple
    ensures { result ≡ simple_by standing number }
{
    match (standing, number) {
        (Some(simple), _) => simple,
        (None, Some(number)) => Simple::Later(Target::Name(number)),
        (None, None) => Simple::Known(0),
    }
}

/// Returns the operand of a name, where its look-up found `found` and its number among the names is `number`.
fn found(found: Found<Place>, number: Option<usize>) -> Simple
    ensures { result ≡ found_simple found number }
{
    match found {
        Found::System(meaning) | Found::Declared(meaning, _) => simple(standing(meaning), number),
        Found::Used | Found::Unknown => simple(None, number),
    }
}

impl<B: Bounds> Output<B> {
    /// Returns the code and what the story has beside it.
    pub fn into_parts(self) -> (Code<B>, Contents<B>)
        ensures code { result.0 ≡ self.code }
        ensures contents { (result.1.names ≡ self.names) × (result.1.strings ≡ self.strings) × (result.1.tables ≡ self.tables) }
    {
        let Output {
            code,
            strings,
            tables,
            names,
            texts: _,
            seen: _,
            first: _,
            next: _,
            past: _,
            kept: _,
        } = self;
        let contents = Contents {
            names,
            strings,
            tables,
        };
        (code, contents)
    }

    /// Returns an output of the given code, strings, tables, names and texts, of which no routine was begun.
    pub fn new(
        code: Code<B>,
        strings: Strings<B>,
        tables: Tables<B>,
        names: Symbols<Place, B>,
        texts: Texts,
        seen: Symbols<Place, Unbounded>,
        first: Place,
    ) -> Output<B>
        ensures { result ≡ record {
          code = code;
          strings = strings;
          tables = tables;
          names = names;
          texts = texts;
          seen = seen;
          first = first;
          next = 0;
          past = None;
          kept = None;
        } }
    {
        Output {
            code,
            strings,
            tables,
            names,
            texts,
            seen,
            first,
            next: 0,
            past: None,
            kept: None,
        }
    }

    /// Multiplies packed addresses by `scale` from now on: the next routine and the next string are filled up to it.
    pub fn set_scale(&mut self, scale: Scale)
        ensures { self.new ≡ with_scale scale self.old }
    {
        self.code.set_scale(scale);
        self.strings.set_scale(scale);
    }

    /// Returns the first limit that was passed, in the order of the settings, counted over all that was laid since. The references
    /// of tables count with those of code.
    pub fn full(&self) -> Option<Setting>
        ensures { result ≡ full B.most self.now }
    {
        if self.past.is_none() && self.has_room() {
            return None;
        }
        self.full_past()
    }

    /// Returns whether the code, as it was laid, and the references passed no limit.
    fn has_room(&self) -> bool
        ensures { result ≡ true → self.now.past ≡ None → full B.most self.now ≡ None }
    {
        if self.code.labels_left().is_none() || self.code.code_left().is_none() {
            return false;
        }
        match self.code.references_left() {
            Some(left) => self.tables.references() <= left,
            None => false,
        }
    }

    /// Returns the first limit that was passed, as `full` does. It stands apart, since mostly there is room.
    #[inline(never)]
    fn full_past(&self) -> Option<Setting>
        ensures { result ≡ full B.most self.now }
    {
        self.rest().counted(self.tables.references()).full()
    }

    /// Opens a routine of `locals` locals, at most 15, whose labels are counted from 0; it is lost if `is_lost`. Where that would
    /// pass a limit none is open, and the limit is passed. A routine that is open is given up.
    #[tactic(auto, using(crate::proofs::Limits::none_where_memory))]
    pub fn open(&mut self, alloc: Global, locals: u8, is_lost: bool) -> Result<(), AllocError>
        requires { locals ≤ 15 }
        ensures ok { OnOk result (self.new ≡ opened B.most locals is_lost self.old) }
        ensures memory { OnErr result (full_opened B.most is_lost self.old.code ≡ None) }
    {
        self.next = 0;
        match self.code.open(alloc, locals, is_lost) {
            Ok(()) => Ok(()),
            Err(GrowFault::Full(limit)) => {
                self.past = Some(self.rest().passed(limit));
                Ok(())
            }
            Err(GrowFault::Memory) => Err(AllocError),
        }
    }

    /// Returns the room left of each limit.
    pub(crate) fn rest(&self) -> Past
        ensures { result ≡ past_of B.most self.now }
    {
        match self.past {
            Some(past) => past,
            None => Past::whole(&self.code),
        }
    }

    /// Begins the code with the first routine of the story, unless it has begun. Where that would pass a limit it does not begin,
    /// and the limit is passed.
    pub fn begin(&mut self)
        ensures { self.new ≡ begun B.most self.old }
    {
        if let Some(limit) = self.code.begin() {
            self.past = Some(self.rest().passed(limit));
        }
    }

    /// Closes the open routine, if there is one, as one of `kind`. Returns the fault of the routine, if it has one: then it is given up,
    /// and where the fault is a limit, that is passed. The limit of labels is passed, too, where the routine had too many.
    pub fn close(&mut self, kind: RoutineKind) -> Result<Option<CloseFault>, AllocError>
        ensures value { OnOk result (self.new ≡ closed B.most kind self.old) }
        ensures fault { IfOk result (λ fault. fault ≡ fault_closed B.most kind self.old.code) }
    {
        let labels = self.rest().labels;
        let fault = self.close_code(kind)?;
        if labels.is_none() {
            self.past = Some(self.rest().passed(CodeLimit::Labels));
        }
        Ok(fault)
    }

    /// Closes the code of the open routine, if there is one, as one of `kind`. Returns the fault of the routine, if it has one:
    /// then it is given up, and where the fault is a limit, that is passed.
    fn close_code(&mut self, kind: RoutineKind) -> Result<Option<CloseFault>, AllocError>
        ensures value { OnOk result (self.new ≡ code_closed B.most kind self.old) }
        ensures fault { IfOk result (λ fault. fault ≡ fault_closed B.most kind self.old.code) }
    {
        match self.code.close(kind) {
            Ok(()) => Ok(None),
            Err(CloseFault::Memory) => Err(AllocError),
            Err(CloseFault::Full(limit)) => {
                self.past = Some(self.rest().passed(limit));
                Ok(Some(CloseFault::Full(limit)))
            }
            Err(fault) => Ok(Some(fault)),
        }
    }

    /// Declares `name` with `meaning`. Returns the refusal, if there is one: then nothing is declared, and where `name` would be
    /// one too many, that limit is passed.
    pub fn declare(
        &mut self,
        name: &[u8],
        place: Place,
        meaning: Meaning,
    ) -> Result<Option<DeclareFault<Place>>, AllocError>
        requires { length name.now ≤ 35 }
        ensures value { OnOk result (self.new ≡ declared B.most name.now place meaning self.old) }
        ensures err { OnErr result (self.new ≡ self.old) }
        ensures fault { IfOk result (λ fault. fault ≡ declare_fault B.most name.now self.old.names) }
        ensures memory { OnErr result (declare_fault B.most name.now self.old.names ≡ None) }
    {
        match self.names.declare(name, place, meaning) {
            Ok(_) => Ok(None),
            Err(DeclareFault::Memory) => Err(AllocError),
            Err(DeclareFault::Full) => {
                self.pass_symbols();
                Ok(Some(DeclareFault::Full))
            }
            Err(DeclareFault::Present(first)) => Ok(Some(DeclareFault::Present(first))),
        }
    }

    /// Uses `name` at `place`. Returns the meaning that its look-up found, with its number; `None` where it would be one too many:
    /// then that limit is passed.
    pub fn refer(
        &mut self,
        name: &[u8],
        place: Place,
    ) -> Result<Option<(Found<Place>, Option<usize>)>, AllocError>
        requires { length name.now ≤ 35 }
        ensures value { OnOk result (self.new ≡ referred B.most name.now place self.old) }
        ensures err { OnErr result (self.new ≡ self.old) }
        ensures found { IfOk result (λ found. found ≡ referred_as B.most name.now self.old) }
        ensures memory { OnErr result (refer_fault B.most name.now self.old.names ≡ None) }
    {
        match self.names.find_and_refer(name, place) {
            Ok(found) => Ok(Some(found)),
            Err(ReferFault::Full) => {
                self.pass_symbols();
                Ok(None)
            }
            Err(ReferFault::Memory) => Err(AllocError),
        }
    }

    /// Passes the limit of names.
    fn pass_symbols(&mut self)
        ensures { self.new ≡ symbols_passed B.most self.old }
    {
        self.past = Some(Past {
            symbols: true,
            ..self.rest()
        });
    }

    /// Adds a string of the bytes `text`, which are a packed text, and returns its place. Where it would pass the limit nothing is
    /// added, and the limit is passed.
    pub fn string(&mut self, text: &[u8]) -> Result<Target, AllocError>
        ensures target { IfOk result (λ target. target ≡ string_at self.old) }
        ensures value { OnOk result (self.new ≡ with_text B.most text.now self.old) }
        ensures err { OnErr result (self.new ≡ self.old) }
        ensures memory { OnErr result (fits B.most text.now self.old.strings ≡ true) }
    {
        let place = self.strings.len();
        if !self.strings.add(text)? {
            self.past = Some(Past {
                strings: true,
                ..self.rest()
            });
        }
        Ok(Target::Place(AreaName::Strings, place))
    }

    /// Adds a low string of the bytes `text`, which are a packed text, and returns its place. Where it would pass the limit nothing
    /// is added, and the limit is passed.
    pub fn low_string(&mut self, text: &[u8]) -> Result<Target, AllocError>
        ensures target { IfOk result (λ target. target ≡ low_string_at self.old) }
        ensures value { OnOk result (self.new ≡ with_low_text B.most text.now self.old) }
        ensures err { OnErr result (self.new ≡ self.old) }
        ensures memory { OnErr result (low_fits B.most text.now self.old.tables.low_strings ≡ true) }
    {
        let place = self.tables.low_strings.len();
        if !self.tables.low_strings.add(text)? {
            self.pass_table(Setting::LowStrings);
        }
        Ok(Target::Place(AreaName::LowStrings, place))
    }

    /// Passes `limit`, the limit of a table that would hold more than it allows.
    pub fn pass_table(&mut self, limit: Setting)
        ensures { self.new ≡ passed_table B.most limit self.old }
    {
        self.past = Some(self.rest().table_passed(limit));
    }

    /// Adds a use of the dictionary word with `text`. Where it would be one too many it is not added, and the limit is passed; nor
    /// is it added where it would become a word of another verb.
    pub fn word(
        &mut self,
        text: [u8; 6],
        word_use: WordUse,
        is_plural: bool,
    ) -> Result<(), AllocError>
        ensures ok { OnOk result (self.new ≡ with_word B.most text word_use is_plural self.old) }
        ensures memory { let dictionary = self.old.tables.dictionary in
            OnErr result (add_fault B.most (word_of text dictionary.list) word_use dictionary ≡ None) }
    {
        match self.tables.dictionary.add(text, word_use, is_plural) {
            Ok(()) | Err(WordFault::OtherVerb) => Ok(()),
            Err(WordFault::Full) => {
                self.pass_table(Setting::DictionaryEntries);
                Ok(())
            }
            Err(WordFault::Memory) => Err(AllocError),
        }
    }

    /// Returns the operand by which the routine `veneer` is called. Its name is looked up, and used at the first token of the unit.
    #[tactic(auto, unfolding(crate::specs::Output::routine, crate::specs::Output::used))]
    pub fn routine(&mut self, veneer: Veneer) -> Result<Simple, AllocError>
        ensures operand { IfOk result (λ operand. operand ≡ routine B.most veneer self.old) }
        ensures used { OnOk result (self.new ≡ used B.most veneer self.old) }
        ensures memory { OnErr result (refer_fault B.most (name_of veneer) self.old.names ≡ None) }
    {
        match self
            .names
            .find_and_refer(veneer.name().as_bytes(), self.first)
        {
            Ok((what, number)) => Ok(found(what, number)),
            Err(ReferFault::Full) => {
                self.pass_symbols();
                Ok(Simple::Later(Target::Name(0)))
            }
            Err(ReferFault::Memory) => Err(AllocError),
        }
    }
}

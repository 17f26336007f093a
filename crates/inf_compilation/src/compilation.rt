//! Work of the actions of the grammar: they gather the parts of a unit, which acts at its end.
ghost use Rattle.inf_compilation.specs.{Actions.names_class, Actions.no_output, Context.handed, Context.longest};
ghost use Rattle.std.specs.Prelude.{IfOk, None, OnOk, Some, false, true, ◌<◌, ◌≡◌, ◌≤◌};
ghost use Rattle.inf_settings.specs.Bounds.{AreSet};
ghost use Rattle.inf_unit.specs.{Atoms.is_short, Messages.location, Spelled.spelled};

use crate::context::Context;
use crate::findings::{Findings, NOWHERE};
use inf_area::Scale;
use inf_code::code::{Code, CodeLimits};
use inf_constructs::constructs::Constructs;
use inf_constructs::labels::Labels;
use inf_expressions::{Finding, Forest, Operand};
use inf_letters::Letters;
use inf_lexer::{Place, Stack};
use inf_names::hashing::NameHashing;
use inf_names::locals::Locals;
use inf_names::meanings::Meaning;
use inf_names::name_sets::NameSet;
use inf_names::symbols::{Found, Symbols};
use inf_output::{Output, Strings, Texts};
use inf_report::messages::Message;
use inf_scanner::{Mark, TokenKind};
use inf_settings::bounds::{Bounds, Unbounded};
use inf_settings::setting::Setting;
use inf_settings::settings::Settings;
use inf_tables::{Arrays, Tables};
use inf_templates::Tasks;
use inf_unit::directives::Request;
use inf_unit::messages::{Diagnostics, location};
use inf_unit::names::no_symbols;
use inf_unit::tokens::SourceToken;
use inf_unit::unit::Unit;
use inf_verbs::LinePlace;
use std::alloc::{AllocError, Global};
use std::mem;

/// Most brackets, braces and compound statements that may stand in one another.
const MOST_NESTED: usize = 64;

/// All that was compiled so far.
pub struct Compilation<B: Bounds> {
    pub alloc: Global,
    /// The most tokens that an expression had so far.
    pub most_tokens: usize,
    /// The most labels, branches and jumps that a routine had so far, where units were finished.
    pub most_labels: usize,
    pub unit: Unit,
    /// The statements that are open.
    pub constructs: Constructs,
    /// The number of statements that were closed ahead, since a conditional stood before the next token, which ends them whatever it is.
    closed: usize,
    /// The place of the last token, if it is the word of a compound statement where a case may stand, too.
    pub opening: Option<Place>,
    /// The labels with names of the routine that was opened last.
    pub labels: Labels,
    /// The locals of the open routine.
    pub locals: Locals,
    pub output: Output<B>,
    /// The rest of a tree that is still to be laid: nothing, between the calls that lay.
    pub tasks: Tasks,
    /// Memory for the operands and the trees of the next unit of a routine.
    pub operands: Vec<Operand>,
    pub forest: Option<Forest>,
    pub report: Diagnostics,
    /// The request to the reading of the directive that was finished last.
    pub asked: Request,
    /// The names of routines that are to be replaced.
    pub replaced: NameSet,
    /// Tells whether routines of the file at hand may be replaced.
    pub is_system: bool,
    /// Tells whether the routine at hand is passed over, since it is to be replaced.
    pub is_replaced: bool,
    /// The array whose entries are read, and where they go if its header had an error.
    pub listing: Listing,
    pub lost: Arrays<Unbounded>,
    /// Tells whether the values that are read are those of the property `name`.
    pub is_name: bool,
    /// Tells whether the open routine is a value of a property.
    pub is_embedded: bool,
    /// The verb whose lines are read.
    pub extending: Extending,
    /// All that letters said so far.
    pub letters: Letters,
    /// The entries of the header of the story, as directives told them so far.
    pub told: Header,
}

/// One call at each exit of a function that owns a compilation, in place of a call for each part of each part.
impl<B: Bounds> Drop for Compilation<B> {
    fn drop(self) {
        let _parts = self.into_parts();
    }
}

/// Returns an output without code and names, of which there may be as many as `settings` say.
fn no_output<B: Bounds>(
    alloc: Global,
    settings: &Settings,
    hashing: NameHashing,
) -> Result<Output<B>, AllocError>
    requires { AreSet B.most settings.now }
    ensures { IfOk result (λ output. output ≡ no_output) }
{
    let limits = CodeLimits {
        labels: settings.bound::<B>(Setting::Labels) as usize,
        code: settings.bound::<B>(Setting::Code) as usize,
        refs: settings.bound::<B>(Setting::References) as usize,
    };
    let code = Code::new(alloc, limits, Scale::Four)?;
    let strings = Strings::new(
        alloc,
        settings.bound::<B>(Setting::Strings) as usize,
        Scale::Four,
    );
    let tables = Tables::new(alloc, settings);
    Ok(Output::new(
        code,
        strings,
        tables,
        no_symbols(alloc, settings, hashing),
        Texts::new(alloc),
        Symbols::new(alloc, u32::MAX, false, hashing),
        NOWHERE,
    ))
}

fn longest(context: &Context<'_>) -> usize
    ensures { result ≡ longest (handed context.now) }
{
    context.settings.of(Setting::ExpressionNodes) as usize
}

/// Returns whether a name stands for a class, where its look-up found `found`.
fn names_class(found: Found<Place>) -> bool
    ensures { result ≡ names_class found }
{
    matches!(found, Found::Declared(Meaning::Class(_), _))
}

/// The verb whose lines are read.
#[derive(Clone, Copy)]
pub struct Extending {
    /// The number of the verb; none, where its header had an error.
    pub verb: Option<u8>,
    pub place: LinePlace,
}

/// The entries of the header of a story that directives tell (Z-Machine Standard 1.1, section 11.1).
#[derive(Clone, Copy)]
pub struct Header {
    pub release: u16,
    /// The digits of the serial number; none, where that is the date.
    pub serial: Option<[u8; 6]>,
}

/// The array whose entries are read.
#[derive(Clone, Copy)]
pub struct Listing {
    /// Tells whether the header of the array had an error: then it is no array of the story.
    pub is_lost: bool,
    /// Tells whether the array had an entry, with an error or without.
    pub has_entries: bool,
}

impl<B: Bounds> Compilation<B> {
    ghost use Rattle.inf_unit.specs.Directives.{Nothing, asked, asks};
    ghost use Rattle.inf_compilation.specs.{Findings.found_alone, Findings.nothing_found, Meant.found_as, Nesting.closed_ahead};
    ghost use Rattle.inf_compilation.specs.{Nesting.construct_closed, Works.work};
    ghost use Rattle.inf_compilation.specs.Actions.{begun_at, is_class, is_deep, labels_counted, letters_chosen, nested, no_work};
    ghost use Rattle.inf_compilation.specs.Actions.{opening_checked, passed, piece_begun, sized, stopped, token_checked, took};
    ghost use Rattle.inf_compilation.specs.Actions.{finding_told, unit_ended};

    /// Returns the output and the messages.
    pub fn into_parts(self) -> (Output<B>, Diagnostics)
        ensures output { result.0 ≡ self.output }
        ensures report { result.1 ≡ self.report }
    {
        let Compilation {
            alloc: _,
            most_tokens: _,
            most_labels: _,
            unit: _,
            constructs: _,
            closed: _,
            opening: _,
            labels: _,
            locals: _,
            output,
            tasks: _,
            operands: _,
            forest: _,
            report,
            asked: _,
            replaced: _,
            is_system: _,
            is_replaced: _,
            listing: _,
            lost: _,
            is_name: _,
            is_embedded: _,
            extending: _,
            letters: _,
            told: _,
        } = self;
        (output, report)
    }

    /// Makes a compilation before the first unit, whose areas are bounded by `settings` and whose names are hashed by `hashing`.
    pub fn new(
        alloc: Global,
        settings: &Settings,
        hashing: NameHashing,
    ) -> Result<Compilation<B>, AllocError>
        requires { AreSet B.most settings.now }
        ensures { IfOk result (λ w. work w ≡ no_work settings.now) }
    {
        Ok(Compilation {
            alloc,
            most_tokens: 0,
            most_labels: 0,
            unit: Unit::new(alloc),
            constructs: Constructs::new(alloc),
            closed: 0,
            opening: None,
            labels: Labels::new(alloc),
            locals: Locals::new(),
            output: no_output(alloc, settings, hashing)?,
            tasks: Tasks::new(alloc),
            operands: Vec::new(alloc),
            forest: None,
            report: Diagnostics::new(alloc, true),
            asked: Request::Nothing,
            replaced: NameSet::new(alloc, hashing),
            is_system: false,
            is_replaced: false,
            listing: Listing {
                is_lost: false,
                has_entries: false,
            },
            lost: Arrays::new(alloc, usize::MAX),
            is_name: false,
            is_embedded: false,
            extending: Extending {
                verb: None,
                place: LinePlace::Last,
            },
            letters: Letters::none(),
            told: Header {
                release: 1,
                serial: None,
            },
        })
    }

    /// Has `letters` hold from now on, which are all that were said so far: warnings are told or not, the next routine and the next
    /// string are filled up as the version wants it, texts are packed with abbreviations or without them, and the language has the
    /// name `DEBUG` or has it not.
    pub fn choose(&mut self, letters: Letters)
        ensures { work self.new ≡ letters_chosen letters (work self.old) }
    {
        self.letters = letters;
        self.output.set_scale(letters.scale());
        self.output.texts.set_used(letters.abbreviates());
        self.output.names.set_debugging(letters.debugs());
        self.report.set_warnings(letters.warns());
    }

    /// Returns whether a token of `kind` with `bytes` is the name of a class. A name has at most 32 bytes.
    pub fn is_class(&self, kind: TokenKind, bytes: &[u8]) -> bool
        requires { is_short kind bytes.now ≡ true }
        ensures { result ≡ is_class kind bytes.now (work self.now) }
    {
        match kind {
            TokenKind::Name => names_class(self.output.names.look(bytes)),
            _ => false,
        }
    }

    /// Returns whether a directive has a request to the reading.
    pub fn asks(&self) -> bool
        ensures { result ≡ asks (work self.now).asked }
    {
        !matches!(self.asked, Request::Nothing)
    }

    /// Takes away the request of a directive to the reading; there is none then.
    pub fn take_asked(&mut self) -> Request
        ensures asked { asked result ≡ (work self.old).asked }
        ensures nothing { work self.new ≡ record (work self.old) { asked = Nothing } }
    {
        mem::replace(&mut self.asked, Request::Nothing)
    }

    /// Begins a piece. No locals of a routine before it are known in it.
    pub fn begin_piece(&mut self)
        ensures { work self.new ≡ piece_begun (work self.old) }
    {
        self.unit.clear();
        self.constructs.clear();
        self.closed = 0;
        self.opening = None;
        self.locals.list.clear();
    }

    /// Finishes a conditional directive at `first`, or the source: code begins with it, unless it has begun. The first setting that was
    /// passed ends the compilation.
    pub fn begin(&mut self, files: &Stack, first: Place) -> Result<(), AllocError>
        ensures { OnOk result (work self.new ≡ begun_at B.most files.now.names first (work self.old)) }
    {
        self.output.begin();
        self.count_labels();
        self.report.full(files, first, self.output.full())
    }

    /// Counts the labels, branches and jumps of the open routine.
    pub(crate) fn count_labels(&mut self)
        ensures { work self.new ≡ labels_counted (work self.old) }
    {
        self.most_labels = self.most_labels.max(self.output.code.labels());
    }

    /// Closes the `count` innermost statements, which are over whatever the next token is, since a conditional stands before it.
    pub fn close_ahead(&mut self, count: usize) -> Result<(), AllocError>
        ensures { OnOk result (work self.new ≡ closed_ahead B.most count (work self.old)) }
    {
        let more = count.saturating_sub(self.closed);
        self.constructs.end_all(more, &mut self.output)?;
        self.closed = self.closed.max(count);
        Ok(())
    }

    /// Closes the innermost statement, which is over, unless it was closed before.
    #[inline(never)]
    pub fn close_construct(&mut self) -> Result<(), AllocError>
        ensures { OnOk result (work self.new ≡ construct_closed B.most (work self.old)) }
    {
        if self.closed > 0 {
            self.closed -= 1;
            return Ok(());
        }
        self.constructs.end(&mut self.output)
    }

    /// Takes `token` into the unit. An expression that is too long by it, or a bracket or brace that stands too deep, ends the compilation.
    pub fn take(&mut self, context: &Context<'_>, token: &SourceToken<'_>) -> Result<(), AllocError>
        ensures { OnOk result (work self.new ≡ took (handed context.now) (spelled token.now) (work self.old)) }
    {
        self.unit.take(token)?;
        self.size(context)?;
        self.check_token(context, token)
    }

    /// Ends the compilation where the word of a compound statement, if that was taken last, stands too deep.
    pub fn check_opening(&mut self, context: &Context<'_>) -> Result<(), AllocError>
        ensures { OnOk result (work self.new ≡ opening_checked (handed context.now) (work self.old)) }
    {
        let Some(place) = self.opening else {
            return Ok(());
        };
        let is_deep = self.is_deep(1);
        self.nest(context, place, is_deep)
    }

    /// Ends the compilation where an expression has more tokens than it may have, at the first token too many.
    #[inline(always)]
    pub fn size(&mut self, context: &Context<'_>) -> Result<(), AllocError>
        ensures { OnOk result (work self.new ≡ sized (handed context.now) (work self.old)) }
    {
        if let Some(place) = self.unit.long_at(longest(context)) {
            return self.tell_long(context, place);
        }
        self.most_tokens = self.most_tokens.max(self.unit.outer_tokens());
        Ok(())
    }

    /// Returns whether brackets, braces and compound statements stand too deep in one another, with `more` more of these.
    pub fn is_deep(&self, more: usize) -> bool
        requires { more ≤ 1 }
        ensures { result ≡ is_deep (work self.now) more }
    {
        let constructs = self.constructs.depth();
        let room = MOST_NESTED.saturating_sub(self.unit.depth as usize);
        constructs > room || constructs + more > room || self.unit.depth as usize > MOST_NESTED
    }

    /// Ends the compilation at `place` by a fatal error if `is_deep`.
    pub fn nest(
        &mut self,
        context: &Context<'_>,
        place: Place,
        is_deep: bool,
    ) -> Result<(), AllocError>
        ensures { OnOk result (work self.new ≡ nested (handed context.now) place is_deep (work self.old)) }
    {
        if !is_deep {
            return Ok(());
        }
        self.tell_deep(context, place)
    }

    /// Ends the compilation by a fatal error at `place`, where an expression has more tokens than it may have.
    #[cold]
    #[inline(never)]
    fn tell_long(&mut self, context: &Context<'_>, place: Place) -> Result<(), AllocError>
        ensures { OnOk result (work self.new ≡ stopped (handed context.now) (Some place) (work self.old)) }
    {
        self.report.fatal(
            location(context.files, place),
            &Message::Exceeded(Setting::ExpressionNodes),
        )
    }

    /// Ends the compilation by a fatal error at `place`, where brackets, braces and compound statements stand too deep in one another.
    #[cold]
    #[inline(never)]
    fn tell_deep(&mut self, context: &Context<'_>, place: Place) -> Result<(), AllocError>
        ensures { OnOk result (work self.new ≡ nested (handed context.now) place true (work self.old)) }
    {
        self.report
            .fatal(location(context.files, place), &Message::DeepNesting)
    }

    /// Ends the compilation at `token` if it is a bracket or brace that stands too deep.
    fn check_token(
        &mut self,
        context: &Context<'_>,
        token: &SourceToken<'_>,
    ) -> Result<(), AllocError>
        ensures { OnOk result (work self.new ≡ token_checked (handed context.now) (spelled token.now) (work self.old)) }
    {
        let opens = matches!(
            token.kind,
            TokenKind::Mark(Mark::OpenParenthesis | Mark::OpenBrace)
        );
        let is_deep = opens && self.is_deep(0);
        self.nest(context, token.place, is_deep)
    }

    /// Ends a unit that begins at `first`, whose last token is still to come if `has_last`: the least of `found` is told, and then the
    /// first limit that was passed.
    pub fn end_unit(
        &mut self,
        context: &Context<'_>,
        first: Place,
        has_last: bool,
        found: &Findings,
    ) -> Result<(), AllocError>
        ensures { OnOk result (work self.new ≡ unit_ended B.most (handed context.now) first has_last (found_as found.now) (work self.old)) }
    {
        if found.least.is_some() {
            self.tell_found(context, first, found)?;
        }
        self.end_clean(context, first, has_last)
    }

    /// Ends a unit that begins at `first`, as `end_unit` does, with `finding` alone, if there is one.
    pub fn end_alone(
        &mut self,
        context: &Context<'_>,
        first: Place,
        has_last: bool,
        finding: Option<Finding>,
    ) -> Result<(), AllocError>
        ensures { OnOk result (work self.new ≡ unit_ended B.most (handed context.now) first has_last (found_alone finding) (work self.old)) }
    {
        match finding {
            None => self.end_clean(context, first, has_last),
            Some(_) => self.end_unit(context, first, has_last, &Findings::alone(finding)),
        }
    }

    /// Tells the least of `found`, in a unit that begins at `first`.
    #[cold]
    #[inline(never)]
    fn tell_found(
        &mut self,
        context: &Context<'_>,
        first: Place,
        found: &Findings,
    ) -> Result<(), AllocError>
        ensures { OnOk result (work self.new ≡ finding_told (handed context.now) first (found_as found.now) (work self.old)) }
    {
        let blame = found.told(context.files, &self.unit.tokens, first);
        self.report.fault(context.files, first, blame)
    }

    /// Ends a unit in which nothing is wrong, that begins at `first` and whose last token is still to come if `has_last`: the first
    /// limit that was passed is told.
    pub fn end_clean(
        &mut self,
        context: &Context<'_>,
        first: Place,
        has_last: bool,
    ) -> Result<(), AllocError>
        ensures { OnOk result (work self.new ≡ unit_ended B.most (handed context.now) first has_last nothing_found (work self.old)) }
    {
        self.unit.end(has_last);
        self.count_labels();
        match self.output.full() {
            None => Ok(()),
            full => self.report.full(context.files, first, full),
        }
    }

    /// Ends a unit of which nothing comes, whose last token is still to come if `has_last`.
    pub fn pass(&mut self, has_last: bool)
        ensures { work self.new ≡ passed has_last (work self.old) }
    {
        self.unit.end(has_last);
    }
}

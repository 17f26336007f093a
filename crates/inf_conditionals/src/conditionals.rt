//! The conditionals of the file that is read.
ghost use Rattle.std.specs.Prelude.{◌≡◌, [], Bool, IfOk, OnOk, IsErr, IsSome, None, false, is_none, reverse, true};
ghost use Rattle.inf_conditionals.specs.{Judging.sign_handed, Words.word_of};
ghost use Rattle.inf_scanner.specs.declared.tokens.Mark.{Mark};
ghost use Rattle.inf_unit.specs.{Atoms.keyword_of_kind, Spelled.spelled, Tokens.is_end, Tokens.is_mark, Tokens.keyword};

use crate::condition::{Condition, Steps};
use crate::ends::tell_all;
use crate::filtered::{Filtered, Forwarded, KEPT, NONE, Sign, Site};
use crate::open::LeftOut;
use crate::open_conditions::OpenConditions;
use crate::pending::{Awaits, Effect, Pending};
use crate::said::Said;
use crate::words::{ConditionalWord, ends_side, levels_behind, may_be_word, word_of};
use inf_lexer::Stack;
use inf_output::Output;
use inf_scanner::{Mark, Place, TokenKind};
use inf_settings::bounds::Bounds;
use inf_sources::open_file::Conditional;
use inf_unit::kinds::{is_end, is_mark};
use inf_unit::messages::Diagnostics;
use inf_unit::tokens::SourceToken;
use inf_unit::unit::Unit;
use std::alloc::{AllocError, Global};
use std::marker::Model;
use std::mem;

/// The conditionals that are open, and the state of the conditional directive at hand.
pub struct Conditionals {
    pub(crate) alloc: Global,
    /// The conditionals of the innermost file that were opened between its directives, the latest last.
    pub(crate) among: Vec<Conditional>,
    /// The conditionals that were opened inside the directive at hand, the latest last.
    pub(crate) inner: Vec<Conditional>,
    /// The conditional directives that are being read, the inner ones last.
    pending: Vec<Pending>,
    /// The conditions of the directives that have one.
    pub(crate) conditions: OpenConditions,
    /// The side that is left out.
    pub(crate) left_out: Option<LeftOut>,
    /// A `#` that is held back until the token behind it is known.
    sign: Option<Place>,
    /// The number of names that were declared before the directive at hand.
    pub(crate) declared: usize,
    /// The most tokens that a condition had so far.
    pub most_tokens: usize,
    /// The message about a condition.
    pub(crate) said: Option<Said>,
    /// A condition that was read, whose memory the next one has. That of its unit may be in the message.
    pub(crate) spare: Option<Box<Condition>>,
    /// All that conditions share.
    pub(crate) steps: Steps,
}

impl Model for Conditionals {
    ghost use Rattle.std.specs.Prelude.{option_map, reverse};
    ghost use Rattle.inf_conditionals.specs.{Meant.said_of, Open.Conditions};

    ghost Value = { Conditions };

    ghost view = { λ c. record {
      among = reverse c.among.items;
      inner = reverse c.inner.items;
      pending = reverse c.pending.items;
      conditions = c.conditions;
      left_out = c.left_out;
      sign = c.sign;
      declared = c.declared;
      most_tokens = c.most_tokens;
      said = option_map said_of c.said;
    } };
}

/// Returns the `#` at `place` as it is handed on, if it is by `handed`.
fn sign_handed(place: Place, handed: Option<Forwarded>) -> Option<Sign>
    ensures { result ≡ sign_handed place handed }
{
    match handed {
        Some(handed) => Some(Sign { place, handed }),
        None => None,
    }
}

/// Returns whether a token of `kind` with `bytes` may do something in a side that is left out: the end does, a `#`, and a word of a
/// conditional. Of a name only its length and its first letter are looked at.
#[inline(always)]
fn may_act(kind: TokenKind, bytes: &[u8]) -> bool
    ensures { result ≡ false →
        (is_end kind ≡ false) × (is_mark Mark.Hash kind ≡ false) × (word_of (keyword_of_kind kind bytes.now) ≡ None) }
{
    match kind {
        TokenKind::Name => may_be_word(bytes),
        TokenKind::Mark(_) => is_mark(kind, Mark::Hash),
        TokenKind::End => true,
        TokenKind::Number(_)
        | TokenKind::Char(_)
        | TokenKind::Word(_)
        | TokenKind::Text
        | TokenKind::Bad(_) => false,
    }
}

/// Gives `spare` the memory of `unit`, if there are both.
fn give_back(spare: &mut Option<Box<Condition>>, unit: Option<Unit>) {
    if let (Some(spare), Some(unit)) = (spare, unit) {
        spare.give_unit(unit);
    }
}

/// One call at each exit of a function that owns conditionals, in place of a call for each part of each part.
impl Drop for Conditionals {
    fn drop(self) {
        let _parts = self.into_parts();
    }
}

impl Conditionals {
    ghost use Rattle.inf_conditionals.specs.Ends.{file_ended, file_told, piece_ended, piece_told, with_among};
    ghost use Rattle.inf_conditionals.specs.Judging.{awaited, awaiting, begun, behind_front, behind_sign, held, in_side, is_behind_side};
    ghost use Rattle.inf_conditionals.specs.Judging.{is_none_pending, judged, kept, may_part, offered, passed, sign_offered, unfit};
    ghost use Rattle.inf_conditionals.specs.Judging.{word_passed};
    ghost use Rattle.inf_output.specs.Output.{Out};
    ghost use Rattle.inf_conditionals.specs.{Open.no_conditions, Open.silent, Said.with_right, Said.with_said};

    /// Returns the conditionals of a source of which none was read. Memory is taken only when one is read.
    pub fn new(alloc: Global) -> Conditionals
        ensures { result ≡ no_conditions }
    {
        Conditionals {
            alloc,
            among: Vec::new(alloc),
            inner: Vec::new(alloc),
            pending: Vec::new(alloc),
            conditions: OpenConditions::new(alloc),
            left_out: None,
            sign: None,
            declared: 0,
            most_tokens: 0,
            said: None,
            spare: None,
            steps: Steps::new(alloc),
        }
    }

    /// Takes these conditionals apart: those that are open, the directives that are being read, and their conditions.
    fn into_parts(
        self,
    ) -> (
        [Vec<Conditional>; 2],
        Vec<Pending>,
        OpenConditions,
        Option<Box<Condition>>,
        Steps,
    ) {
        let Conditionals {
            alloc: _,
            among,
            inner,
            pending,
            conditions,
            left_out: _,
            sign: _,
            declared: _,
            most_tokens: _,
            said: _,
            spare,
            steps,
        } = self;
        ([among, inner], pending, conditions, spare, steps)
    }

    /// Returns whether a first look shows that `token` is kept without any further effect, as most tokens are.
    fn keeps(&self, site: Site, token: &SourceToken<'_>) -> bool
        ensures { (o : Out) → result ≡ true → judged site o (spelled token.now) self.now ≡ kept self.now }
    {
        self.left_out.is_none()
            && self.sign.is_none()
            && self.pending.is_empty()
            && !site.is_between
            && !is_mark(token.kind, Mark::Hash)
    }

    /// Returns whether a first look shows that `token` is kept, and that nothing else comes of it: there is no message to report, either.
    #[inline(always)]
    pub fn passes(&self, site: Site, token: &SourceToken<'_>) -> bool
        ensures kept { (o : Out) → result ≡ true → judged site o (spelled token.now) self.now ≡ kept self.now }
        ensures silent { result ≡ true → self.now.said ≡ None }
    {
        self.keeps(site, token) && self.said.is_none()
    }

    /// Passes a token of `kind` with `bytes` where a first look shows that it does nothing, as most tokens of a side that is left out. A
    /// `#` that was held back before it is forgotten. Returns whether it was passed; where it was not, it is still to be taken.
    #[inline(always)]
    pub fn skips(&mut self, kind: TokenKind, bytes: &[u8]) -> bool
        ensures passes { result ≡ true → (site : Site) (o : Out) (place : Place) (is_class : Bool) → judged site o
            (record { kind = kind; bytes = bytes.now; place = place; is_class = is_class }) self.old ≡ passed self.new }
        ensures silent { result ≡ true → self.new.said ≡ None }
        ensures kept { result ≡ false → self.new ≡ self.old }
    {
        if self.left_out.is_some() && self.said.is_none() && !may_act(kind, bytes) {
            self.sign = None;
            return true;
        }
        false
    }

    /// Takes the next token of the innermost file, and returns its result.
    #[inline(always)]
    pub fn take<B: Bounds>(
        &mut self,
        site: Site,
        out: &Output<B>,
        token: &SourceToken<'_>,
    ) -> Result<Filtered, AllocError>
        ensures { IfOk result (λ j. record { now = self.new; judged = j } ≡ judged site out.now (spelled token.now) self.old) }
    {
        if self.keeps(site, token) {
            return Ok(KEPT);
        }
        self.take_other(site, out, token)
    }

    /// Takes the next token, as `take` does. It stands apart, since a first look shows of most tokens that they are kept.
    #[inline(never)]
    fn take_other<B: Bounds>(
        &mut self,
        site: Site,
        out: &Output<B>,
        token: &SourceToken<'_>,
    ) -> Result<Filtered, AllocError>
        ensures { IfOk result (λ j. record { now = self.new; judged = j } ≡ judged site out.now (spelled token.now) self.old) }
    {
        if let Some(side) = self.left_out {
            return self.take_in_side(side, site, out, token);
        }
        if let Some(place) = self.sign {
            return self.take_behind_sign(place, site, out, token);
        }
        let is_front = site.is_between && self.pending.is_empty();
        self.offer(is_front, site, out, token)
    }

    /// Reports the message about a condition, if there is one. The actions of a condition without an error appear.
    #[inline(always)]
    pub fn tell<B: Bounds>(
        &mut self,
        files: &Stack,
        report: &mut Diagnostics,
        out: &mut Output<B>,
    ) -> Result<(), AllocError>
        ensures told { OnOk result (report.new ≡ with_said files.now.names self.old.said report.old) }
        ensures right { OnOk result (out.new ≡ with_right B.most self.old.said out.old) }
        ensures silent { OnOk result (self.new ≡ silent self.old) }
        ensures memory { IsErr result → IsSome self.old.said }
    {
        if self.said.is_none() {
            return Ok(());
        }
        self.tell_said(files, report, out)
    }

    /// Reports the message about a condition, as `tell` does. It stands apart, since there is none behind most tokens.
    #[inline(never)]
    fn tell_said<B: Bounds>(
        &mut self,
        files: &Stack,
        report: &mut Diagnostics,
        out: &mut Output<B>,
    ) -> Result<(), AllocError>
        ensures told { OnOk result (report.new ≡ with_said files.now.names self.old.said report.old) }
        ensures right { OnOk result (out.new ≡ with_right B.most self.old.said out.old) }
        ensures silent { OnOk result (self.new ≡ silent self.old) }
    {
        if let Some(said) = &self.said {
            said.tell(files, report)?;
            said.add(out)?;
            self.silence();
        }
        Ok(())
    }

    /// Forgets the message about a condition, which was reported. The next condition has its memory.
    fn silence(&mut self)
        ensures { self.new ≡ silent self.old }
    {
        if let Some(said) = self.said.take() {
            give_back(&mut self.spare, said.into_unit());
        }
    }

    /// Returns whether no conditional directive is being read.
    pub fn is_resting(&self) -> bool
        ensures { result ≡ is_none_pending self.now.pending }
    {
        self.pending.is_empty()
    }

    /// Returns whether a part of the reading may end here: behind a whole directive, and behind the side that it leaves
    /// out. The word that ends this side is the first token of the next part.
    pub fn may_part(&self) -> bool
        ensures { result ≡ may_part self.now }
    {
        (self.pending.is_empty() && self.left_out.is_none()) || self.is_behind_side()
    }

    /// Returns whether the word that was taken last ended a side.
    fn is_behind_side(&self) -> bool
        ensures { result ≡ is_behind_side self.now }
    {
        match self.pending.last() {
            Some(pending) => self.sign.is_none() && pending.awaits.has_acted(),
            None => false,
        }
    }

    /// Takes away the conditionals that were opened between the directives, and returns them, the latest last.
    pub fn take_among(&mut self) -> Vec<Conditional>
        ensures taken { reverse result.items ≡ self.old.among }
        ensures none { self.new ≡ with_among [] self.old }
    {
        mem::replace(&mut self.among, Vec::new(self.alloc))
    }

    /// Gives back `among`, the conditionals that were taken away.
    pub fn give_among(&mut self, among: Vec<Conditional>)
        ensures { self.new ≡ with_among (reverse among.items) self.old }
    {
        self.among = among;
    }

    /// Ends the innermost file: reports the conditionals that are open in it, and forgets them.
    pub fn end_file(&mut self, files: &Stack, report: &mut Diagnostics) -> Result<(), AllocError>
        ensures told { OnOk result (report.new ≡ file_told files.now.names self.old report.old) }
        ensures ended { OnOk result (self.new ≡ file_ended self.old) }
    {
        tell_all(self.inner.as_slice(), files, report)?;
        tell_all(self.among.as_slice(), files, report)?;
        self.inner.clear();
        self.among.clear();
        Ok(())
    }

    /// Ends the directive at hand, behind which `declared` names are declared: reports the conditionals that are open
    /// in it, and forgets them.
    pub fn end_piece(
        &mut self,
        declared: usize,
        files: &Stack,
        report: &mut Diagnostics,
    ) -> Result<(), AllocError>
        ensures told { OnOk result (report.new ≡ piece_told files.now.names self.old report.old) }
        ensures ended { OnOk result (self.new ≡ piece_ended declared self.old) }
    {
        tell_all(self.inner.as_slice(), files, report)?;
        self.inner.clear();
        if self.left_out.is_some_and(|side| side.is_inner) {
            self.left_out = None;
        }
        self.declared = declared;
        Ok(())
    }

    /// Takes a token of a side that is left out.
    fn take_in_side<B: Bounds>(
        &mut self,
        side: LeftOut,
        site: Site,
        out: &Output<B>,
        token: &SourceToken<'_>,
    ) -> Result<Filtered, AllocError>
        ensures { IfOk result (λ j. record { now = self.new; judged = j } ≡ in_side site out.now (spelled token.now) side self.old) }
    {
        if is_end(token.kind) {
            self.left_out = None;
            self.sign = None;
            return self.offer(false, site, out, token);
        }
        if let Some(word) = word_of(token.keyword()) {
            self.pass_word(word, token.place, side)?;
            return Ok(NONE);
        }
        self.sign = if is_mark(token.kind, Mark::Hash) {
            Some(token.place)
        } else {
            None
        };
        Ok(NONE)
    }

    /// Takes a word of a conditional in a side that is left out: one that ends the side acts at once, and begins a
    /// directive that has no effect of its own any more.
    fn pass_word(
        &mut self,
        word: ConditionalWord,
        place: Place,
        side: LeftOut,
    ) -> Result<(), AllocError>
        ensures { OnOk result (self.new ≡ word_passed word place side self.old) }
    {
        let place = self.sign.take().unwrap_or(place);
        if side.levels > 0 || !ends_side(word, self.is_second()) {
            self.left_out = Some(LeftOut {
                is_inner: side.is_inner,
                levels: levels_behind(word, side.levels),
            });
            return Ok(());
        }
        self.left_out = None;
        match word {
            ConditionalWord::Endif => self.close(),
            _ => self.turn(),
        }
        self.wait(place, false, Awaits::End(Effect::Nothing))
    }

    /// Takes a token behind a `#` that was held back inside a directive.
    fn take_behind_sign<B: Bounds>(
        &mut self,
        place: Place,
        site: Site,
        out: &Output<B>,
        token: &SourceToken<'_>,
    ) -> Result<Filtered, AllocError>
        ensures { IfOk result (λ j. record { now = self.new; judged = j } ≡
            behind_sign (word_of (keyword (spelled token.now))) place site out.now (spelled token.now) self.old) }
    {
        self.sign = None;
        if let Some(word) = word_of(token.keyword()) {
            return self.begin(word, token, place, true);
        }
        let sign = self.offer_sign(place, site)?;
        let judged = self.offer(false, site, out, token)?;
        Ok(Filtered {
            sign: sign_handed(place, sign.token),
            ..judged
        })
    }

    /// Offers a condition a `#` that was held back inside a directive, and has no word of a conditional behind it.
    fn offer_sign(&mut self, place: Place, site: Site) -> Result<Filtered, AllocError>
        ensures { IfOk result (λ j. record { now = self.new; judged = j } ≡ sign_offered self.old.pending place site self.old) }
    {
        let Some(pending) = self.pending.pop() else {
            self.conditions.clear();
            return Ok(KEPT);
        };
        match pending.awaits {
            Awaits::Condition(wanted) => self.ask_sign(wanted, pending, site, place),
            Awaits::Word | Awaits::Name(_) | Awaits::End(_) => Ok(self.give_up()),
        }
    }

    /// Takes a token where no side is left out and no `#` is held back, at the front of a piece or not.
    fn offer<B: Bounds>(
        &mut self,
        is_front: bool,
        site: Site,
        out: &Output<B>,
        token: &SourceToken<'_>,
    ) -> Result<Filtered, AllocError>
        ensures { IfOk result (λ j. record { now = self.new; judged = j } ≡ offered is_front site out.now (spelled token.now) self.old) }
    {
        if is_mark(token.kind, Mark::Hash) {
            self.hold(is_front, token.place)?;
            return Ok(NONE);
        }
        if let Some(pending) = self.pending.pop() {
            return self.go_on(pending, site, out, token);
        }
        if is_front {
            if let Some(word) = word_of(token.keyword()) {
                return self.begin(word, token, token.place, false);
            }
        }
        Ok(KEPT)
    }

    /// Holds a `#` back, at the front of a piece or not.
    fn hold(&mut self, is_front: bool, place: Place) -> Result<(), AllocError>
        ensures { OnOk result (self.new ≡ held is_front place self.old) }
    {
        if is_front {
            return self.wait(place, false, Awaits::Word);
        }
        self.sign = Some(place);
        Ok(())
    }

    /// Takes a token for the innermost conditional directive, which was taken off.
    fn go_on<B: Bounds>(
        &mut self,
        pending: Pending,
        site: Site,
        out: &Output<B>,
        token: &SourceToken<'_>,
    ) -> Result<Filtered, AllocError>
        ensures { IfOk result (λ j. record { now = self.new; judged = j } ≡
            awaited pending.awaits site out.now (spelled token.now) pending self.old) }
    {
        match pending.awaits {
            Awaits::Word => self.name_directive(pending, token),
            Awaits::Name(if_declared) if matches!(token.kind, TokenKind::Name) => {
                let is_declared = out.names.declared_before(token.bytes, self.declared);
                let effect = Effect::Opens(is_declared == if_declared);
                self.wait(pending.place, pending.is_inner, Awaits::End(effect))?;
                Ok(NONE)
            }
            Awaits::End(effect) if is_mark(token.kind, Mark::Semicolon) => {
                self.carry_out(effect, site.is_quiet, pending)
            }
            Awaits::Condition(wanted) => { self.go_on_asking(wanted, pending, site, out, token) }
            Awaits::Name(_) | Awaits::End(_) => Ok(self.give_up()),
        }
    }

    /// Takes a token behind a `#` at the front of a piece.
    fn name_directive(
        &mut self,
        pending: Pending,
        token: &SourceToken<'_>,
    ) -> Result<Filtered, AllocError>
        ensures { IfOk result (λ j. record { now = self.new; judged = j } ≡
            behind_front (word_of (keyword (spelled token.now))) (spelled token.now) pending self.old) }
    {
        if let Some(word) = word_of(token.keyword()) {
            return self.begin(word, token, pending.place, pending.is_inner);
        }
        Ok(Filtered {
            sign: Some(Sign {
                place: pending.place,
                handed: Forwarded::Kept,
            }),
            ..KEPT
        })
    }

    /// Begins a conditional directive with `word`, at `place`, inside another or not.
    fn begin(
        &mut self,
        word: ConditionalWord,
        token: &SourceToken<'_>,
        place: Place,
        is_inner: bool,
    ) -> Result<Filtered, AllocError>
        ensures { IfOk result (λ j. record { now = self.new; judged = j } ≡ begun word (spelled token.now) place is_inner self.old) }
    {
        if let Awaits::Condition(wanted) = word.awaits() {
            return self.begin_asking(wanted, &token.at(place), is_inner);
        }
        self.wait(place, is_inner, word.awaits())?;
        Ok(NONE)
    }

    /// Gives up the conditional directives that are being read, for a token that does not fit.
    pub(crate) fn give_up(&mut self) -> Filtered
        ensures { record { now = self.new; judged = result } ≡ unfit self.old }
    {
        self.pending.clear();
        self.conditions.clear();
        Filtered {
            token: Some(Forwarded::Unfit),
            ..NONE
        }
    }

    /// Adds a conditional directive to those that are being read, inside the others.
    pub(crate) fn wait(
        &mut self,
        place: Place,
        is_inner: bool,
        awaits: Awaits,
    ) -> Result<(), AllocError>
        ensures { OnOk result (self.new ≡ awaiting place is_inner awaits self.old) }
    {
        self.pending.push(Pending {
            place,
            is_inner,
            awaits,
        })?;
        Ok(())
    }
}

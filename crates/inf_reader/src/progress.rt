//! The reading of a source, and its compilation so far, token by token.
ghost use Rattle.inf_compilation.specs.Context.{handed};
ghost use Rattle.std.specs.Prelude.{◌≡◌, [], IfOk, OnOk, true};
ghost use Rattle.inf_settings.specs.Bounds.{AreSet};
ghost use Rattle.inf_report.specs.Meant.{located};
ghost use Rattle.inf_unit.specs.Spelled.{spelled};
ghost use Rattle.inf_reader.specs.{Handing.hash, Reading.with_complaint, Tests.complaint_of};

use crate::acting::{act_all, cut};
use crate::reader::Reader;
use crate::recovery::{Recovery, passed};
use crate::tokens::complaint_of;
use inf_compilation::compilation::Compilation;
use inf_compilation::context::Context;
use inf_conditionals::ends::tell_lone;
use inf_conditionals::filtered::{Filtered, Forwarded, Site};
use inf_lexer::Place;
use inf_names::hashing::NameHashing;
use inf_report::messages::{Kind, Location};
use inf_scanner::{Mark, TokenKind};
use inf_settings::bounds::Bounds;
use inf_settings::setting::Setting;
use inf_settings::settings::Settings;
use inf_syntax::Action;
use inf_unit::kinds::is_end;
use inf_unit::messages::{Diagnostics, location};
use inf_unit::tokens::SourceToken;
use std::alloc::{AllocError, Global};

/// The reading of a source, and its compilation so far.
#[derive(Drop)]
pub struct Progress<B: Bounds> {
    alloc: Global,
    pub reader: Reader,
    /// The actions on the way to the token at hand.
    actions: Vec<Action>,
    pub work: Compilation<B>,
}

impl<B: Bounds> Progress<B> {
    ghost use Rattle.inf_reader.specs.Handing.{handed_as, is_between, is_inside, judged_taken, site_of};
    ghost use Rattle.inf_reader.specs.Reading.{bad, begun_stand, has_ended_at, judged, piece_begun, read_at, step};
    ghost use Rattle.inf_reader.specs.Standing.{reading, standing};
    ghost use Rattle.inf_compilation.specs.{Actions.piece_begun as work_begun, Works.work};

    /// Returns the progress before the first token of a source, whose names are hashed by `hashing`.
    pub fn new(
        alloc: Global,
        settings: &Settings,
        hashing: NameHashing,
    ) -> Result<Progress<B>, AllocError>
        requires { AreSet B.most settings.now }
        ensures { IfOk result (λ progress. standing progress ≡ begun_stand settings.now) }
    {
        Ok(Progress {
            alloc,
            reader: Reader::new(alloc),
            actions: Vec::new(alloc),
            work: Compilation::new(alloc, settings, hashing)?,
        })
    }

    /// Returns whether nothing is left to be read.
    pub fn has_ended(&self) -> bool
        ensures { result ≡ has_ended_at (standing self.now) }
    {
        self.work.report.is_over() || matches!(self.reader.mode, Recovery::Ended)
    }

    /// Takes the next token of a source, whose files are in `context`.
    pub fn take(&mut self, context: &Context<'_>, token: &SourceToken<'_>) -> Result<(), AllocError>
        ensures { let before = standing self.old in
            OnOk result (standing self.new ≡ step B.most (handed context.now) (spelled token.now) before.reading before.work) }
    {
        match self.reader.mode {
            Recovery::Reads => self.read_token(context, token),
            Recovery::SkipsRoutine | Recovery::SkipsDirective => {
                self.reader.mode = passed(self.reader.mode, token);
                Ok(())
            }
            Recovery::Ended => Ok(()),
        }
    }

    /// Returns whether the next token comes between the pieces of a source.
    pub fn is_between(&self) -> bool
        ensures { result ≡ is_between (standing self.now).reading }
    {
        matches!(self.reader.mode, Recovery::Reads) && self.reader.machine.is_done()
    }

    /// Returns whether the next token is a further one of a piece that is read.
    #[inline(always)]
    pub fn is_inside(&self) -> bool
        ensures { result ≡ is_inside (standing self.now).reading }
    {
        matches!(self.reader.mode, Recovery::Reads) && !self.reader.machine.is_done()
    }

    /// Takes the next token of a source, as `take` does, where it is a further one of a piece that is read.
    #[inline(always)]
    #[tactic(auto, using(crate::proofs::Inside::stepped_inside))]
    pub fn take_inside(
        &mut self,
        context: &Context<'_>,
        token: &SourceToken<'_>,
    ) -> Result<(), AllocError>
        requires { is_inside (standing self.old).reading ≡ true }
        ensures { let before = standing self.old in
            OnOk result (standing self.new ≡ step B.most (handed context.now) (spelled token.now) before.reading before.work) }
    {
        self.judge(context, token)
    }

    /// Returns the place in the reading at which the next token comes.
    pub fn site(&self, settings: &Settings) -> Site
        ensures { result ≡ site_of settings.now (standing self.now).reading }
    {
        Site {
            is_between: self.is_between(),
            is_quiet: matches!(
                self.reader.mode,
                Recovery::SkipsRoutine | Recovery::SkipsDirective
            ),
            longest: settings.of(Setting::ExpressionNodes) as usize,
        }
    }

    /// Takes the next token of a source, with its result among conditionals, `judged`.
    #[inline(always)]
    pub fn take_judged(
        &mut self,
        context: &Context<'_>,
        token: &SourceToken<'_>,
        judged: Filtered,
    ) -> Result<(), AllocError>
        ensures { OnOk result (standing self.new ≡ judged_taken B.most (handed context.now) (spelled token.now) judged
            (standing self.old)) }
    {
        if judged.sign.is_none() && judged.unmatched.is_none() && judged.ended.is_none() {
            return match judged.token {
                Some(forwarded) => self.hand(context, token, forwarded),
                None => Ok(()),
            };
        }
        self.take_whole(context, token, judged)
    }

    /// Takes the next token of a source with its result, as `take_judged` does. It stands apart, since of most tokens nothing comes but
    /// that they are handed on.
    #[inline(never)]
    fn take_whole(
        &mut self,
        context: &Context<'_>,
        token: &SourceToken<'_>,
        judged: Filtered,
    ) -> Result<(), AllocError>
        ensures { OnOk result (standing self.new ≡ judged_taken B.most (handed context.now) (spelled token.now) judged
            (standing self.old)) }
    {
        if let Some(sign) = judged.sign {
            self.hand(context, &hash(sign.place), sign.handed)?;
        }
        if let Some(forwarded) = judged.token {
            self.hand(context, token, forwarded)?;
        }
        if let Some(place) = judged.unmatched {
            tell_lone(place, context.files, &mut self.work.report)?;
        }
        if let Some(place) = judged.ended {
            self.work.close_ahead(self.reader.machine.closings())?;
            self.work.begin(context.files, place)?;
        }
        Ok(())
    }

    /// Takes a token that is kept, or one that does not fit; one that a condition took it leaves alone.
    fn hand(
        &mut self,
        context: &Context<'_>,
        token: &SourceToken<'_>,
        forwarded: Forwarded,
    ) -> Result<(), AllocError>
        ensures { OnOk result (standing self.new ≡ handed_as B.most forwarded (handed context.now) (spelled token.now)
            (standing self.old)) }
    {
        match (forwarded, self.reader.mode) {
            (Forwarded::Unfit, Recovery::Reads) => self.bad(context, token),
            (Forwarded::Kept | Forwarded::Unfit, _) => self.take(context, token),
            (Forwarded::Condition, _) => Ok(()),
        }
    }

    /// Takes a token of a piece, or the end between the pieces.
    #[tactic(auto, using(crate::proofs::Inside::read_first, crate::proofs::Inside::read_inside))]
    fn read_token(
        &mut self,
        context: &Context<'_>,
        token: &SourceToken<'_>,
    ) -> Result<(), AllocError>
        ensures { let before = reading self.old.reader in OnOk result (standing self.new
            ≡ read_at B.most (handed context.now) (spelled token.now) before.stack before (work self.old.work)) }
    {
        if !self.reader.machine.is_done() {
            return self.judge(context, token);
        }
        if is_end(token.kind) {
            self.reader.mode = Recovery::Ended;
            return Ok(());
        }
        self.read_first(context, token)
    }

    /// Begins a new piece, where none is at hand.
    fn begin_piece(&mut self) -> Result<(), AllocError>
        requires { (reading self.old.reader).stack ≡ [] }
        ensures reading { OnOk result (reading self.new.reader ≡ piece_begun (reading self.old.reader)) }
        ensures work { OnOk result (work self.new.work ≡ work_begun (work self.old.work)) }
    {
        self.reader.begin()?;
        self.work.begin_piece();
        Ok(())
    }

    /// Takes the first token of a new piece, where none is at hand.
    #[inline(never)]
    fn read_first(
        &mut self,
        context: &Context<'_>,
        token: &SourceToken<'_>,
    ) -> Result<(), AllocError>
        requires { (reading self.old.reader).stack ≡ [] }
        ensures { OnOk result (standing self.new
            ≡ judged B.most (handed context.now) (spelled token.now) (piece_begun (reading self.old.reader))
            (work_begun (work self.old.work))) }
    {
        self.begin_piece()?;
        self.judge(context, token)
    }

    /// Takes a token of the piece at hand, if it fits; else it is the bad one.
    fn judge(&mut self, context: &Context<'_>, token: &SourceToken<'_>) -> Result<(), AllocError>
        ensures { let before = reading self.old.reader in OnOk result (standing self.new
            ≡ judged B.most (handed context.now) (spelled token.now) before (work self.old.work)) }
    {
        if !self.reader.read(token.atom(), &mut self.actions)? {
            return self.bad(context, token);
        }
        act_all(
            &mut self.work,
            context,
            token.place,
            self.actions.as_slice(),
        )?;
        self.work.take(context, token)
    }

    /// Reports the bad token of a piece, and passes over it.
    #[cold]
    #[inline(never)]
    fn bad(&mut self, context: &Context<'_>, token: &SourceToken<'_>) -> Result<(), AllocError>
        ensures { let before = reading self.old.reader in
            OnOk result (standing self.new ≡ bad B.most (handed context.now) (spelled token.now) before (work self.old.work)) }
    {
        self.reader.give_up(token);
        cut(&mut self.work, context, token.place)?;
        let at = location(context.files, token.place);
        complain(&mut self.work.report, at, token)
    }
}

fn hash(place: Place) -> SourceToken<'static>
    ensures { spelled result ≡ hash place }
{
    SourceToken::new(TokenKind::Mark(Mark::Hash), b"#", place, false)
}

/// Reports the fault of a token at a line: a text that is too long ends the compilation.
#[cold]
#[inline(never)]
fn complain(
    report: &mut Diagnostics,
    at: Location<'_>,
    token: &SourceToken<'_>,
) -> Result<(), AllocError>
    ensures { OnOk result (report.new ≡ with_complaint (located at.entry) (complaint_of (spelled token.now)) report.old) }
{
    let message = complaint_of(token);
    match message.kind() {
        Kind::Fatal => report.fatal(at, &message),
        Kind::Error | Kind::Warning => report.error(at, at, &message),
    }
}

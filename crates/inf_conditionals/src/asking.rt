//! The conditions of conditional directives, token by token.
ghost use Rattle.std.specs.Prelude.{◌≡◌, IfOk, OnOk, false, option_map, true};
ghost use Rattle.inf_conditionals.specs.{Condition.condition_took, Judging.hash};
ghost use Rattle.inf_grammar.specs.Language.{grammar, known};
ghost use Rattle.inf_machine.specs.Machine.{fits};
ghost use Rattle.inf_unit.specs.{Spelled.spelled, Tokens.atom_of};

use crate::condition::{Condition, Steps, spare_or_new};
use crate::conditionals::Conditionals;
use crate::filtered::{Filtered, NONE, Site, TAKEN};
use crate::pending::{Awaits, Effect, Pending};
use crate::said::{Said, too_much};
use inf_expressions::Finding;
use inf_output::Output;
use inf_scanner::{Mark, Place, TokenKind};
use inf_settings::bounds::Bounds;
use inf_unit::tokens::SourceToken;
use std::alloc::AllocError;

/// Returns a `#` at a place.
fn hash(place: Place) -> SourceToken<'static>
    ensures { spelled result ≡ hash place }
{
    SourceToken::new(TokenKind::Mark(Mark::Hash), b"#", place, false)
}

/// Takes the next token of `condition`, if it fits, and returns whether it does. The condition is passed over if `is_quiet`.
fn take(
    is_quiet: bool,
    condition: &mut Condition,
    steps: &mut Steps,
    token: &SourceToken<'_>,
) -> Result<bool, AllocError>
    ensures fits { IfOk result (λ is_taken. is_taken ≡ fits grammar known (atom_of (spelled token.now)) condition.old.stack) }
    ensures taken { IfOk result (λ is_taken. is_taken ≡ true → condition.new ≡ condition_took (spelled token.now) condition.old) }
{
    if is_quiet {
        condition.take_quietly(steps, token)
    } else {
        condition.take(steps, token)
    }
}

impl Conditionals {
    ghost use Rattle.inf_conditionals.specs.{Condition.verdict_of, Meant.said_of, Said.told_by, Said.too_much};
    ghost use Rattle.inf_conditionals.specs.Judging.{asked, asked_first, asked_on, asking, decided, saying, sign_asked, tokens_counted};

    /// Begins a conditional directive with a condition, by its word.
    pub(crate) fn begin_asking(
        &mut self,
        wanted: bool,
        word: &SourceToken<'_>,
        is_inner: bool,
    ) -> Result<Filtered, AllocError>
        ensures { IfOk result (λ j. record { now = self.new; judged = j } ≡ asked_first wanted (spelled word.now) is_inner self.old) }
    {
        let mut condition = spare_or_new(self.alloc, &mut self.spare)?;
        condition.begin()?;
        if !condition.take(&mut self.steps, word)? {
            return Ok(self.give_up());
        }
        self.ask(word.place, is_inner, wanted, condition)?;
        Ok(NONE)
    }

    /// Takes a token for the condition of a conditional directive.
    pub(crate) fn go_on_asking<B: Bounds>(
        &mut self,
        wanted: bool,
        directive: Pending,
        site: Site,
        out: &Output<B>,
        token: &SourceToken<'_>,
    ) -> Result<Filtered, AllocError>
        ensures { IfOk result (λ j. record { now = self.new; judged = j } ≡
            asked self.old.conditions wanted site out.now (spelled token.now) directive self.old) }
    {
        let Some(mut condition) = self.conditions.pop(&mut self.spare, &mut self.steps)? else {
            return Ok(self.give_up());
        };
        if !take(site.is_quiet, &mut condition, &mut self.steps, token)? {
            return Ok(self.give_up());
        }
        if condition.is_whole() {
            return self.decide_by(site.is_quiet, wanted, directive, out, condition);
        }
        self.ask_on(wanted, directive, site, token, condition)
    }

    /// Takes the `#` at `place`, which was held back, for the innermost condition. No directive ends with it.
    pub(crate) fn ask_sign(
        &mut self,
        wanted: bool,
        directive: Pending,
        site: Site,
        place: Place,
    ) -> Result<Filtered, AllocError>
        ensures { IfOk result (λ j. record { now = self.new; judged = j } ≡
            sign_asked self.old.conditions wanted place site directive self.old) }
    {
        let Some(mut condition) = self.conditions.pop(&mut self.spare, &mut self.steps)? else {
            return Ok(self.give_up());
        };
        let sign = hash(place);
        if !take(site.is_quiet, &mut condition, &mut self.steps, &sign)? {
            return Ok(self.give_up());
        }
        self.ask_on(wanted, directive, site, &sign, condition)
    }

    /// Goes on with a conditional directive behind a token that its condition took.
    fn ask_on(
        &mut self,
        wanted: bool,
        directive: Pending,
        site: Site,
        token: &SourceToken<'_>,
        condition: Box<Condition>,
    ) -> Result<Filtered, AllocError>
        ensures { IfOk result (λ j. record { now = self.new; judged = j } ≡
            asked_on wanted site (spelled token.now) condition.value directive self.old) }
    {
        let mut condition = condition;
        self.measure(site, token, &mut condition)?;
        self.ask(directive.place, directive.is_inner, wanted, condition)?;
        Ok(TAKEN)
    }

    /// Counts the tokens of a condition so far, of which `token` is the last, and notes the message that there are too many, unless the
    /// condition is passed over.
    fn measure(
        &mut self,
        site: Site,
        token: &SourceToken<'_>,
        condition: &mut Condition,
    ) -> Result<(), AllocError>
        ensures measured { OnOk result (self.new ≡ saying site.is_quiet (too_much site.longest (spelled token.now) condition.old)
            (tokens_counted site.is_quiet condition.old self.old)) }
        ensures same { OnOk result (condition.new ≡ condition.old) }
    {
        if site.is_quiet {
            self.said = None;
            return Ok(());
        }
        let extent = condition.extent(&mut self.steps, site.longest)?;
        self.most_tokens = self.most_tokens.max(extent.tokens);
        self.say(too_much(token, extent));
        Ok(())
    }

    /// Ends a conditional directive with a condition, which is whole, and is passed over if `is_quiet`.
    fn decide_by<B: Bounds>(
        &mut self,
        is_quiet: bool,
        wanted: bool,
        directive: Pending,
        out: &Output<B>,
        condition: Box<Condition>,
    ) -> Result<Filtered, AllocError>
        ensures { IfOk result (λ j. record { now = self.new; judged = j } ≡
            decided (verdict_of self.old.declared out.now condition.value) wanted is_quiet condition.value directive self.old) }
    {
        if is_quiet {
            self.decide_quietly(wanted, directive, out, condition)
        } else {
            self.decide(wanted, directive, out, condition)
        }
    }

    /// Ends a conditional directive with a condition, which is whole.
    fn decide<B: Bounds>(
        &mut self,
        wanted: bool,
        directive: Pending,
        out: &Output<B>,
        condition: Box<Condition>,
    ) -> Result<Filtered, AllocError>
        ensures { IfOk result (λ j. record { now = self.new; judged = j } ≡
            decided (verdict_of self.old.declared out.now condition.value) wanted false condition.value directive self.old) }
    {
        let mut condition = condition;
        let verdict = condition.judge(&mut self.steps, self.declared, out)?;
        self.found(directive.place, condition, verdict.finding)?;
        let effect = Effect::Opens(verdict.is_true == wanted);
        self.carry_out(effect, false, directive)
    }

    /// Ends a conditional directive with a condition, which is whole and passed over.
    fn decide_quietly<B: Bounds>(
        &mut self,
        wanted: bool,
        directive: Pending,
        out: &Output<B>,
        condition: Box<Condition>,
    ) -> Result<Filtered, AllocError>
        ensures { IfOk result (λ j. record { now = self.new; judged = j } ≡
            decided (verdict_of self.old.declared out.now condition.value) wanted true condition.value directive self.old) }
    {
        let mut condition = condition;
        let is_true = condition.is_true(&mut self.steps, self.declared, out)?;
        self.said = None;
        self.spare = Some(condition);
        self.carry_out(Effect::Opens(is_true == wanted), true, directive)
    }

    /// Notes the message about `condition`, which has this `finding` or is right. Its directive begins at `directive`.
    fn found(
        &mut self,
        directive: Place,
        condition: Box<Condition>,
        finding: Option<Finding>,
    ) -> Result<(), AllocError>
        ensures { OnOk result (self.new ≡ saying false (told_by directive condition.value finding) self.old) }
    {
        let mut condition = condition;
        let unit = condition.take_unit(&mut self.steps)?;
        self.spare = Some(condition);
        match finding {
            Some(finding) => self.say(Some(Said::Wrong(directive, unit, finding))),
            None => self.say(Some(Said::Right(unit))),
        }
        Ok(())
    }

    /// Notes `said` as the message about a condition, if there is one.
    fn say(&mut self, said: Option<Said>)
        ensures { self.new ≡ record (self.old) { said = option_map said_of said } }
    {
        self.said = said;
    }

    /// Adds a conditional directive with a condition to those that are being read, inside the others.
    fn ask(
        &mut self,
        place: Place,
        is_inner: bool,
        wanted: bool,
        condition: Box<Condition>,
    ) -> Result<(), AllocError>
        ensures { OnOk result (self.new ≡ asking place is_inner wanted condition.value self.old) }
    {
        self.conditions.push(condition, &mut self.spare)?;
        self.wait(place, is_inner, Awaits::Condition(wanted))
    }
}

//! The effects of conditional directives: conditionals open, turn and close.
ghost use Rattle.std.specs.Prelude.{◌≡◌, IfOk, OnOk, Some, false, not, reverse, true};
ghost use Rattle.inf_conditionals.specs.Open.{turned_first};

use crate::conditionals::Conditionals;
use crate::filtered::{Filtered, NONE};
use crate::open::LeftOut;
use crate::pending::{Effect, Pending};
use inf_sources::open_file::Conditional;
use std::alloc::AllocError;

/// Begins the second side of the last of `conditionals`.
fn turn_last(conditionals: &mut Vec<Conditional>)
    ensures { reverse conditionals.new.items ≡ turned_first (reverse conditionals.old.items) }
{
    if let Some(last) = conditionals.last_mut() {
        last.is_second = true;
    }
}

impl Conditionals {
    ghost use Rattle.inf_conditionals.specs.Judging.{effected};
    ghost use Rattle.inf_conditionals.specs.Open.{closed, is_none_open, is_second, latest, opened, turned};

    /// Ends a conditional directive.
    pub(crate) fn carry_out(
        &mut self,
        effect: Effect,
        is_quiet: bool,
        directive: Pending,
    ) -> Result<Filtered, AllocError>
        ensures { IfOk result (λ j. record { now = self.new; judged = j } ≡ effected effect is_quiet directive self.old) }
    {
        let is_lone = match effect {
            Effect::Opens(is_kept) => {
                self.open(is_kept, directive)?;
                false
            }
            Effect::Turns => self.leave_second_out(),
            Effect::Closes => self.close_latest(),
            Effect::Nothing => false,
        };
        let place = if is_quiet {
            None
        } else {
            Some(directive.place)
        };
        Ok(Filtered {
            unmatched: if is_lone { place } else { None },
            ended: place,
            ..NONE
        })
    }

    /// Opens a conditional by a directive.
    fn open(&mut self, is_kept: bool, directive: Pending) -> Result<(), AllocError>
        ensures { OnOk result (self.new ≡ opened is_kept directive self.old) }
    {
        let new = Conditional {
            place: directive.place,
            is_second: false,
        };
        if directive.is_inner {
            self.inner.push(new)?;
        } else {
            self.among.push(new)?;
        }
        self.left_out = if is_kept {
            None
        } else {
            Some(LeftOut {
                is_inner: directive.is_inner,
                levels: 0,
            })
        };
        Ok(())
    }

    /// Leaves the second side of the latest conditional out, whose first side was kept. Returns whether there is no such conditional.
    fn leave_second_out(&mut self) -> bool
        ensures unmatched { result ≡ is_second (latest self.old) }
        ensures same { result ≡ true → self.new ≡ self.old }
        ensures turned { result ≡ false → self.new ≡
            record (turned self.old) { left_out = Some (record { is_inner = not (is_none_open self.old.inner); levels = 0 }) } }
    {
        if self.is_second() {
            return true;
        }
        self.turn();
        self.left_out = Some(LeftOut {
            is_inner: !self.inner.is_empty(),
            levels: 0,
        });
        false
    }

    /// Closes the latest conditional. Returns whether there is none.
    fn close_latest(&mut self) -> bool
        ensures unmatched { result ≡ is_none_open (latest self.old) }
        ensures same { result ≡ true → self.new ≡ self.old }
        ensures closed { result ≡ false → self.new ≡ closed self.old }
    {
        if self.inner.is_empty() && self.among.is_empty() {
            return true;
        }
        self.close();
        false
    }

    /// Returns whether the latest conditional is in its second side, or there is none.
    pub(crate) fn is_second(&self) -> bool
        ensures { result ≡ is_second (latest self.now) }
    {
        if let Some(latest) = self.inner.last() {
            return latest.is_second;
        }
        match self.among.last() {
            Some(latest) => latest.is_second,
            None => true,
        }
    }

    /// Begins the second side of the latest conditional.
    pub(crate) fn turn(&mut self)
        ensures { self.new ≡ turned self.old }
    {
        if self.inner.is_empty() {
            turn_last(&mut self.among);
        } else {
            turn_last(&mut self.inner);
        }
    }

    /// Closes the latest conditional.
    pub(crate) fn close(&mut self)
        ensures { self.new ≡ closed self.old }
    {
        if self.inner.pop().is_none() {
            self.among.pop();
        }
    }
}

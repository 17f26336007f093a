//! The reading of a source: the machine of the grammar, and the passing over of bad pieces.
ghost use Rattle.std.specs.Prelude.{◌≡◌, [], IfOk, OnErr, OnOk, false, true};
ghost use Rattle.inf_grammar.specs.Language.{grammar, known};
ghost use Rattle.inf_machine.specs.Machine.{fits, taken};
ghost use Rattle.inf_reader.specs.{Standing.reading, declared.recovery.Recovery.Recovery};
ghost use Rattle.inf_reader.specs.Reading.{between, passed, skip_of, piece_begun};

use crate::recovery::{Recovery, passed};
use inf_grammar::{Action, Machine, PIECE};
use inf_unit::tokens::SourceToken;
use std::alloc::{AllocError, Global};

/// The way in which the next token is read, and the rest of the piece at hand that is still to come.
#[derive(Drop)]
pub struct Reader {
    pub mode: Recovery,
    pub machine: Machine,
}

impl Reader {
    /// Returns a reader before the first piece.
    pub fn new(alloc: Global) -> Reader
        ensures { reading result ≡ between Recovery.Reads }
    {
        Reader {
            mode: Recovery::Reads,
            machine: Machine::new(alloc),
        }
    }

    /// Begins a piece, where none is at hand.
    pub fn begin(&mut self) -> Result<(), AllocError>
        requires { (reading self.old).stack ≡ [] }
        ensures { OnOk result (reading self.new ≡ piece_begun (reading self.old)) }
    {
        self.machine.start(PIECE)
    }

    /// Returns whether a token fits, and takes it where it does, with the actions on the way to it. Where it does not fit, and where memory
    /// runs out, the reading stays as it was.
    pub fn read(&mut self, atom: u8, actions: &mut Vec<Action>) -> Result<bool, AllocError>
        ensures fits { IfOk result (λ is_taken. is_taken ≡ fits grammar known atom (reading self.old).stack) }
        ensures reading { let before = reading self.old in IfOk result (λ is_taken. is_taken ≡ true →
            reading self.new ≡ record before { stack = (taken grammar known atom before.stack).left }) }
        ensures actions { IfOk result (λ is_taken. is_taken ≡ true →
            actions.new.items ≡ (taken grammar known atom (reading self.old).stack).actions) }
        ensures same { IfOk result (λ is_taken. is_taken ≡ false → reading self.new ≡ reading self.old) }
        ensures err { OnErr result (reading self.new ≡ reading self.old) }
    {
        actions.clear();
        self.machine.read(atom, actions)
    }

    /// Gives up the piece at hand, which is bad, and passes over its bad token.
    pub fn give_up(&mut self, token: &SourceToken<'_>)
        ensures { reading self.new ≡ between (passed (skip_of (reading self.old).stack) token.now.kind) }
    {
        let skip = if self.machine.is_in_routine() {
            Recovery::SkipsRoutine
        } else {
            Recovery::SkipsDirective
        };
        self.mode = passed(skip, token);
        self.machine.clear();
    }
}

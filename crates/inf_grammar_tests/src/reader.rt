//! A machine that reads tokens by their spelling.
use crate::pieces::token;
use inf_grammar::{Action, Machine, atom_of};
use std::alloc::{AllocError, Global};

/// A machine, with the tokens that it took.
#[derive(Drop)]
pub(crate) struct Reader {
    pub(crate) machine: Machine,
    /// The actions on the way to the tokens.
    pub(crate) actions: Vec<Action>,
    /// The number of tokens.
    pub(crate) taken: usize,
}

impl Reader {
    /// Makes a reader whose machine has not started.
    pub(crate) fn new(alloc: Global) -> Reader {
        Reader {
            machine: Machine::new(alloc),
            actions: Vec::new(alloc),
            taken: 0,
        }
    }

    /// Returns whether a token fits.
    pub(crate) fn fits(&self, spelling: &str) -> bool {
        self.machine.fits(atom_of(token(spelling.as_bytes())))
    }

    /// Takes a token if it fits, and returns whether it does.
    pub(crate) fn take(&mut self, spelling: &str) -> Result<bool, AllocError> {
        let atom = atom_of(token(spelling.as_bytes()));
        let fits = self.machine.fits(atom);
        if fits {
            self.machine.take(atom, &mut self.actions)?;
        }
        Ok(fits)
    }

    /// Takes a token if it fits, and returns whether it does, by one call of the machine.
    pub(crate) fn read(&mut self, spelling: &str) -> Result<bool, AllocError> {
        let atom = atom_of(token(spelling.as_bytes()));
        self.machine.read(atom, &mut self.actions)
    }

    /// Reads tokens with spaces between them up to one that does not fit. Returns whether all fit.
    pub(crate) fn read_all(&mut self, tokens: &str) -> Result<bool, AllocError> {
        for spelling in tokens.split(' ') {
            if !self.read(spelling)? {
                return Ok(false);
            }
            self.taken = self.taken.saturating_add(1);
        }
        Ok(true)
    }
}

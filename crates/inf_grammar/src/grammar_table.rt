//! The grammar of the language as a table for the machine, as one type.
ghost use Rattle.inf_grammar.specs.{Evaluated.language_is_decided, Language.grammar, Language.known};

use crate::rules;
use inf_machine::{Symbol, Table};
use inf_syntax::Action;

/// The table of the grammar of the whole language.
pub(crate) struct Language;

impl Table for Language {
    type Action = Action;

    ghost grammar = { grammar };

    ghost known = { known };

    fn is_of(class: u8, atom: u8) -> bool {
        rules::is_of(class, atom)
    }

    fn begins(rule: u8, atom: u8) -> bool {
        rules::begins(rule, atom)
    }

    fn can_be_empty(rule: u8) -> bool {
        rules::can_be_empty(rule)
    }

    fn way(rule: u8, atom: u8) -> &'static [Symbol<Action>] {
        rules::way(rule, atom)
    }

    fn passed(rule: u8) -> &'static [Symbol<Action>] {
        rules::passed(rule)
    }

    ghost decided = { language_is_decided };
}

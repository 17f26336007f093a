//! Programs: the definition of the outcome of a source by its pieces, with no stack of a machine and no turn; laws that this is
//! the outcome of the turns; and `compile`, whose clauses cite it. Each law is the clause of a function that does nothing.
#![tactic(auto)]

pub mod compile;
mod laws;

pub use inf_compile::{Fault, NameHashing, Status};
pub use laws::{
    lines_are_written_at_any_time, outcomes_are_written, programs_end_in_one_way,
    programs_have_their_outcome, regular_readings_are_programs, sources_are_regular,
    sources_have_programs, texts_are_programs, turns_do_programs, turns_go_by_sides,
    turns_take_tokens,
};

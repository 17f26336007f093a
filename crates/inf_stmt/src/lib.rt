//! Statements: what each does, the statements that hold others, and the routines that the compiler supplies.
//!
//! A user of this layer needs no other crate, but for the session of a `Cx`. It shows types and calls of `inf_statements`,
//! `inf_constructs`, `inf_veneer` and `inf_calls`:
//!
//! - `Statement` says what a statement is; a `Site` has what one goes by: `Site::{finding, line_finding}` answer what is wrong with it,
//!   `Site::lay` writes its code. `lay_expression`, `lay_test`, `lay_switched` and `lay_case` write the code of what stands in others.
//! - `Constructs::{begin, go_on, enter, end}`: the statements that are open, each of a `Kind`, with their labels; `Labels::{want, give,
//!   missing}`: the labels of a routine that have names.
//! - `veneer(n)` and `veneer_name(n)` give the text and the name of a routine that the compiler supplies, of `COUNT` in all.
//! - `Cx::{routine_body, assembly_line, header, close}` read a routine, a line of assembly, and the header and the end of a routine by
//!   itself, and answer where a routine is `Closed`, or a `UnitFault`.
#![tactic(auto)]

pub use inf_calls::cx::{Closed, Cx};
pub use inf_calls::faults::UnitFault;
pub use inf_constructs::constructs::{Case, Construct, Constructs, Kind, Over};
pub use inf_constructs::labels::{Entry, Labels};
pub use inf_constructs::{SWITCHED, lay_case};
pub use inf_statements::Ends;
pub use inf_statements::effects::{Site, wanted_by};
pub use inf_statements::statements::{Statement, lay_expression, lay_switched, lay_test};
pub use inf_veneer::{COUNT, veneer, veneer_name};

//! Leaves and symbols of the expressions of a source's unit, which are gathered while the unit is read, in the order of the
//! grammar's actions.
//!
//! A unit is a statement, an expression in brackets of one, a directive or an entry of one. Nothing is done before it is whole: each action
//! of the grammar gathers a little (`Gathering`), and at the end of the unit its names are looked up and its expressions judged and laid.
#![tactic(auto)]

pub mod gathering;

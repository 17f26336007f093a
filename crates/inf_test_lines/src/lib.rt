//! Lines of tests: the words, numbers and bytes of a line, areas that refuse a byte once, and answers in words.
#![tactic(auto)]

mod answers;
mod areas;
mod digits;
mod words;

pub use answers::{debugged, done, one_or_both, outcome, shown};
pub use areas::{Failing, bytes_in};
pub use digits::{Digits, add_runs, bytes_of, six_bytes};
pub use words::{number, number_at, number_or, repeated, text_of, word};

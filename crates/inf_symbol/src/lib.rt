//! The names of a source, the settings and the messages.
//!
//! A user of this layer needs no other crate. It shows types and calls of `inf_names`, `inf_settings`, `inf_devices` and `inf_report`:
//!
//! - `Symbols::new`, with a limit; `Symbols::declare` answers how many names are then declared, or a `DeclareFault`; `Symbols::refer`
//!   answers the number by which references know a name, or a `ReferFault`; `Symbols::{look, declared_before}` ask and change nothing.
//!   `Meaning` says what a name was declared as, `Found` what looking for one finds.
//! - `Settings::{new, set, of}`: the number of each `Setting`; `SetFault` says why one was not set.
//! - `Sink::write`: what messages and stories are written to, whose contract says which bytes it took; `MemorySink` is one over memory;
//!   `write_whole` writes in as many writes as a sink wants.
//! - `Report::new`; `Report::{error, warning, fatal, plain, statistic, close}` each write the lines of a `Message` at a `Location` to a
//!   sink;
//!   `Report::{errors, warnings, is_over}` tell the counts.
#![tactic(auto)]

pub use inf_devices::memory_sink::MemorySink;
pub use inf_devices::sinks::{Sink, SinkFault, write_whole};
pub use inf_names::hashing::NameHashing;
pub use inf_names::meanings::Meaning;
pub use inf_names::symbols::{DeclareFault, Found, ReferFault, Symbols};
pub use inf_report::messages::{FixedLimit, Kind, Location, Message, Told};
pub use inf_report::own_words::OwnWords;
pub use inf_report::report::{Report, ReportFault};
pub use inf_settings::bounds::Bounds;
pub use inf_settings::setting::{SETTINGS, Setting};
pub use inf_settings::settings::{SetFault, Settings};

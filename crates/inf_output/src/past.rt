//! Room left of the limits of a story.
ghost use Rattle.std.specs.Prelude.{◌≡◌};
ghost use Rattle.inf_output.specs.Output.{counted, first_table, full_of, full_past, less, or_full, passed_limit, table_passed, taken};
ghost use Rattle.inf_output.specs.Output.{whole, without_bytes, without_labels};

use inf_assembler::Limit as CodeLimit;
use inf_code::code::Code;
use inf_opcode::Counts;
use inf_settings::bounds::Bounds;
use inf_settings::setting::Setting;

/// Room left of each limit, once one was passed; none of those that were passed.
#[derive(Clone, Copy)]
pub struct Past {
    /// Tells whether there are more names than there may be.
    pub symbols: bool,
    /// Labels, branches and jumps that the open routine may still take.
    pub labels: Option<usize>,
    /// First limit of a table that was passed, in the order of the settings.
    pub tables: Option<Setting>,
    /// Bytes of code that there may still be.
    pub code: Option<usize>,
    /// Tells whether there are more bytes of strings than there may be.
    pub strings: bool,
    /// References that there may still be.
    pub refs: Option<usize>,
}

fn less(rest: Option<usize>, more: usize) -> Option<usize>
    ensures { result ≡ less rest more }
{
    rest?.checked_sub(more)
}

/// Returns `limit` where `rest` says that it was passed, and else the first limit behind it, which `others` is.
fn full_of(rest: Option<usize>, limit: Setting, others: Option<Setting>) -> Option<Setting>
    ensures { result ≡ full_of rest limit others }
{
    match rest {
        None => Some(limit),
        Some(_) => others,
    }
}

/// Returns the first limit of a table, `passed`, if one was passed, and else the first limit behind it, which `others` is.
fn or_full(passed: Option<Setting>, others: Option<Setting>) -> Option<Setting>
    ensures { result ≡ or_full passed others }
{
    match passed {
        None => others,
        Some(limit) => Some(limit),
    }
}

fn first_table(passed: Option<Setting>, limit: Setting) -> Setting
    ensures { result ≡ first_table passed limit }
{
    match passed {
        None => limit,
        Some(other) if limit.place() < other.place() => limit,
        Some(other) => other,
    }
}

impl Past {
    pub(crate) fn whole<B: Bounds>(code: &Code<B>) -> Past
        ensures { result ≡ whole B.most code.now }
    {
        Past {
            symbols: false,
            labels: code.labels_left(),
            tables: None,
            code: code.code_left(),
            strings: false,
            refs: code.references_left(),
        }
    }

    /// Takes `counts` from the room left.
    pub(crate) fn taken(self, counts: Counts) -> Past
        ensures { result ≡ taken counts self }
    {
        Past {
            symbols: self.symbols,
            labels: less(self.labels, counts.labels),
            tables: self.tables,
            code: less(self.code, counts.bytes),
            strings: self.strings,
            refs: less(self.refs, counts.fixups),
        }
    }

    /// Takes an instruction with `counts`, and with `text` bytes of text, from the room left.
    pub(crate) fn behind(self, counts: Counts, text: usize) -> Past
        ensures { result ≡ without_bytes text (taken counts self) }
    {
        let past = self.taken(counts);
        Past {
            code: less(past.code, text),
            ..past
        }
    }

    /// Takes `labels` labels from the room left.
    pub(crate) fn labelled(self, labels: usize) -> Past
        ensures { result ≡ without_labels labels self }
    {
        Past {
            labels: less(self.labels, labels),
            ..self
        }
    }

    /// Marks `limit` as passed.
    pub(crate) fn passed(self, limit: CodeLimit) -> Past
        ensures { result ≡ passed_limit limit self }
    {
        match limit {
            CodeLimit::Labels => Past {
                labels: None,
                ..self
            },
            CodeLimit::Code => Past { code: None, ..self },
            CodeLimit::Refs => Past { refs: None, ..self },
        }
    }

    pub(crate) fn counted(self, references: usize) -> Past
        ensures { result ≡ counted references self }
    {
        Past {
            refs: less(self.refs, references),
            ..self
        }
    }

    pub(crate) fn table_passed(self, limit: Setting) -> Past
        ensures { result ≡ table_passed limit self }
    {
        Past {
            tables: Some(first_table(self.tables, limit)),
            ..self
        }
    }

    /// Returns the first of the limits that were passed, in the order of the settings.
    pub(crate) fn full(self) -> Option<Setting>
        ensures { result ≡ full_past self }
    {
        if self.symbols {
            return Some(Setting::Symbols);
        }
        let others = if self.strings {
            Some(Setting::Strings)
        } else {
            full_of(self.refs, Setting::References, None)
        };
        let others = full_of(self.code, Setting::Code, others);
        full_of(self.labels, Setting::Labels, or_full(self.tables, others))
    }
}

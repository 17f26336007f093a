//! The statistics of a story, for those who want them.
ghost use Rattle.std.specs.Prelude.{OnOk, ◌≡◌};
ghost use Rattle.inf_story.specs.Statistics.{counts_of, with_statistics};

use inf_code::code::Code;
use inf_link::Sizes;
use inf_settings::bounds::Bounds;
use inf_tables::Tables;
use inf_unit::messages::Diagnostics;
use std::alloc::AllocError;

/// The counts of a source: its names; the words of its dictionary; its objects, with the first four; its verbs; its
/// actions, but fake ones; and its routines, with the first one.
#[derive(Clone, Copy)]
pub struct Counts {
    pub symbols: usize,
    pub words: usize,
    pub objects: usize,
    pub verbs: usize,
    pub actions: usize,
    pub routines: usize,
}

impl Counts {
    /// Counts a source that has `symbols` names, and the routines of `code` and the entries of `tables`.
    pub fn of<B: Bounds>(symbols: usize, code: &Code<B>, tables: &Tables<B>) -> Counts
        ensures { result ≡ counts_of symbols code.now tables.now }
    {
        Counts {
            symbols,
            words: tables.dictionary.len(),
            objects: tables.world.object_count(),
            verbs: tables.verbs.len(),
            actions: tables.actions.len(),
            routines: code.routines(),
        }
    }
}

/// The statistics of a story: the counts of its source, and the sizes in bytes of the story and its parts.
#[derive(Clone, Copy)]
pub struct Statistics {
    pub counts: Counts,
    pub sizes: Sizes,
}

impl Statistics {
    /// Tells each of the ten numbers in a line of its own, unless a fatal error came before.
    pub fn tell(&self, report: &mut Diagnostics) -> Result<(), AllocError>
        ensures { OnOk result (report.new ≡ with_statistics self.now report.old) }
    {
        report.statistic("symbols", self.counts.symbols as u64)?;
        report.statistic("words", self.counts.words as u64)?;
        report.statistic("objects", self.counts.objects as u64)?;
        report.statistic("verbs", self.counts.verbs as u64)?;
        report.statistic("actions", self.counts.actions as u64)?;
        report.statistic("routines", self.counts.routines as u64)?;
        report.statistic("code", self.sizes.code as u64)?;
        report.statistic("strings", self.sizes.strings as u64)?;
        report.statistic("readable", self.sizes.readable as u64)?;
        report.statistic("story", self.sizes.story as u64)
    }
}

//! The lines of one verb.
ghost use Rattle.std.specs.Prelude.{◌≡◌, ◌<◌, ◌+◌, ◌%◌, ◌^◌, ◌++◌, ◌∷◌, [], OnOk, OnErr, length, reverse};
ghost use Rattle.inf_verbs.specs.Lines.{line_size, lines_cells, lines_prepositions, lines_size, prepositions};
ghost use Rattle.inf_verbs.specs.Verbs.{begun_first, extended, lines_of, no_lines, verb_cells, with_line};

use crate::lines::Line;
use crate::verbs::LinePlace;
use inf_area::Cells;
use std::alloc::{AllocError, Global};
use std::marker::Model;

/// The lines of a verb.
///
/// Those that the last `Extend first` put in front can have more of their own behind them. Those that earlier ones put in front are
/// kept backwards, so that none is moved twice.
#[derive(Drop)]
pub(crate) struct Verb {
    first: Vec<Line>,
    front: Vec<Line>,
    back: Vec<Line>,
    // The number of bytes of all lines, and of their tokens that are prepositions.
    size: usize,
    later: usize,
}

impl Model for Verb {
    ghost use Rattle.std.specs.Prelude.{◌≡◌, ◌++◌, reverse};
    ghost use Rattle.inf_verbs.specs.{Lines.lines_prepositions, Lines.lines_size, Verbs.VerbOf};

    ghost Value = { VerbOf };

    ghost view = { λ v. record { first = v.first.items; rest = reverse v.front.items ++ v.back.items } };

    ghost invariant = { λ v. (v.size ≡ lines_size (v.first.items ++ (reverse v.front.items ++ v.back.items)))
        × (v.later ≡ lines_prepositions (v.first.items ++ (reverse v.front.items ++ v.back.items))) };
}

impl Verb {
    /// Returns a verb without lines.
    pub(crate) fn new(alloc: Global) -> Verb
        ensures { result ≡ no_lines }
    {
        Verb {
            first: Vec::new(alloc),
            front: Vec::new(alloc),
            back: Vec::new(alloc),
            size: 0,
            later: 0,
        }
    }

    /// Returns the number of bytes of the lines.
    pub(crate) fn size(&self) -> usize
        ensures { result ≡ lines_size (lines_of self.now) }
    {
        self.size
    }

    /// Returns the number of prepositions among the tokens of the lines.
    pub(crate) fn later_count(&self) -> usize
        ensures { result ≡ lines_prepositions (lines_of self.now) }
    {
        self.later
    }

    /// Prepares the verb for further lines at `place`: takes all lines away where these are replaced.
    pub(crate) fn extend(&mut self, place: LinePlace) -> Result<(), AllocError>
        ensures ok { OnOk result (self.new ≡ extended place self.old) }
        ensures err { OnErr result (self.new ≡ self.old) }
    {
        match place {
            LinePlace::First => self.begin_first(),
            LinePlace::Last => Ok(()),
            LinePlace::Replace => {
                self.clear();
                Ok(())
            }
        }
    }

    /// Adds a line at `place`; `size` is the number of its bytes, `later` that of its prepositions.
    #[tactic(auto, using(inf_area::proofs::Sums::sum_of_more_first, inf_area::proofs::Sums::sum_of_more_last, crate::proofs::Sizes::lines_more_last))]
    pub(crate) fn add(
        &mut self,
        place: LinePlace,
        line: Line,
        size: usize,
        later: usize,
    ) -> Result<(), AllocError>
        requires size { size ≡ line_size line }
        requires later { later ≡ prepositions line.tokens }
        requires bytes { lines_size (lines_of self.old) + size < 2 ^ 64 }
        requires tokens { lines_prepositions (lines_of self.old) + later < 2 ^ 64 }
        ensures ok { OnOk result (self.new ≡ with_line place line self.old) }
        ensures err { OnErr result (self.new ≡ self.old) }
    {
        match place {
            LinePlace::First => {
                self.first.push(line)?;
                self.size += size;
                self.later += later;
                Ok(())
            }
            LinePlace::Last | LinePlace::Replace => {
                self.back.push(line)?;
                self.size += size;
                self.later += later;
                Ok(())
            }
        }
    }

    // Lets further lines go in front of all that there are.
    #[tactic(auto, using(crate::proofs::Turned::turned_behind, crate::proofs::Turned::turned_twice))]
    fn begin_first(&mut self) -> Result<(), AllocError>
        ensures ok { OnOk result (self.new ≡ begun_first self.old) }
        ensures err { OnErr result (self.new ≡ self.old) }
    {
        self.first.reverse();
        if let Err(fault) = self.front.append(&mut self.first) {
            self.first.reverse();
            return Err(fault);
        }
        Ok(())
    }

    // Takes all lines away.
    fn clear(&mut self)
        ensures { self.new ≡ no_lines }
    {
        self.first.clear();
        self.front.clear();
        self.back.clear();
        self.size = 0;
        self.later = 0;
    }

    // Returns the number of lines, modulo 256.
    #[tactic(auto, using(crate::proofs::Turned::turned_length_grouped))]
    fn count_byte(&self) -> u8
        ensures { result ≡ length (lines_of self.now) % 256 }
    {
        let front = self.first.len() % 256 + self.front.len() % 256;
        ((front + self.back.len() % 256) % 256) as u8
    }

    /// Appends the cells of the verb: the number of its lines, and each line.
    #[tactic(auto, using(crate::proofs::Sizes::verb_written))]
    pub(crate) fn add_to(&self, cells: &mut Cells) -> Result<(), AllocError>
        ensures { OnOk result (cells.new ≡ cells.old ++ verb_cells self.now) }
    {
        cells.byte(self.count_byte())?;
        add_lines(cells, &self.first)?;
        add_backwards(cells, &self.front)?;
        add_lines(cells, &self.back)
    }
}

/// Appends the cells of `lines`.
fn add_lines(cells: &mut Cells, lines: &[Line]) -> Result<(), AllocError>
    ensures { OnOk result (cells.new ≡ cells.old ++ lines_cells lines.now) }
{
    for line in lines {
        line.add_to(cells)?;
    }
    Ok(())
}

/// Appends the cells of `lines`, the last line first.
fn add_backwards(cells: &mut Cells, lines: &[Line]) -> Result<(), AllocError>
    ensures { OnOk result (cells.new ≡ cells.old ++ lines_cells (reverse lines.now)) }
{
    let mut left = lines;
    while let Some((last, before)) = left.split_last() {
        last.add_to(cells)?;
        left = before;
    }
    Ok(())
}

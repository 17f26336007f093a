//! The matters that letters choose, read from left to right.
ghost use Rattle.std.specs.Prelude.{◌≡◌};
ghost use Rattle.inf_letters.specs.Letters.{abbreviates, alone, counts, debugs, ignores, none_spoken, paired, scale_of, set_of, spoken};
ghost use Rattle.inf_letters.specs.Letters.{spoken_over, turned_off, warns, with_letters};

use inf_area::Scale;
use inf_characters::CharSet;

/// The choices of letters: on each matter the last letter's, and none where no letter spoke of it.
#[derive(Clone, Copy)]
pub struct Letters {
    /// The character set of the sources, by `C0` and `C1`.
    pub set: Option<CharSet>,
    /// The scale of packed addresses, which gives the version of the story: by `v5` and `v8`.
    pub scale: Option<Scale>,
    /// Whether warnings are shown: no by `w`, and yes by `~w`.
    pub warns: Option<bool>,
    /// Whether texts are abbreviated: yes by `e`, and no by `~e`.
    pub abbreviates: Option<bool>,
    /// Whether statistics are shown: yes by `s`, and no by `~s`.
    pub counts: Option<bool>,
    /// Whether `Switches` chooses nothing: yes by `i`, and no by `~i`.
    pub ignores: Option<bool>,
    /// Whether the language has the name `DEBUG`: yes by `D`, and no by `~D`.
    pub debugs: Option<bool>,
}

/// The choice of one letter, or of two that belong together.
#[derive(Clone, Copy)]
pub(crate) enum Said {
    Set(CharSet),
    Scale(Scale),
    Warns(bool),
    Abbreviates(bool),
    Counts(bool),
    Ignores(bool),
    Debugs(bool),
    /// No choice, by letters that are known.
    Nothing,
}

fn alone(letter: u8) -> Option<Said>
    ensures { result ≡ alone letter }
{
    match letter {
        b'e' => Some(Said::Abbreviates(true)),
        b's' => Some(Said::Counts(true)),
        b'w' => Some(Said::Warns(false)),
        b'i' => Some(Said::Ignores(true)),
        b'D' => Some(Said::Debugs(true)),
        _ => None,
    }
}

/// Returns the choice of a letter behind `~`: none but for `e`, `s`, `w`, `i`, `D` and `S`.
fn turned_off(letter: u8) -> Option<Said>
    ensures { result ≡ turned_off letter }
{
    match letter {
        b'e' => Some(Said::Abbreviates(false)),
        b's' => Some(Said::Counts(false)),
        b'w' => Some(Said::Warns(true)),
        b'i' => Some(Said::Ignores(false)),
        b'D' => Some(Said::Debugs(false)),
        b'S' => Some(Said::Nothing),
        _ => None,
    }
}

/// Returns the choice of two letters together, or `None` where they are no pair.
fn paired(first: u8, second: u8) -> Option<Said>
    ensures { result ≡ paired first second }
{
    match (first, second) {
        (b'~', letter) => turned_off(letter),
        (b'v', b'5') => Some(Said::Scale(Scale::Four)),
        (b'v', b'8') => Some(Said::Scale(Scale::Eight)),
        (b'C', b'0') => Some(Said::Set(CharSet::Ascii)),
        (b'C', b'1') => Some(Said::Set(CharSet::Latin1)),
        (b'E', b'1') => Some(Said::Nothing),
        _ => None,
    }
}

impl Letters {
    /// Returns the choices of no letters: none on each matter.
    pub fn none() -> Letters
        ensures { result ≡ none_spoken }
    {
        Letters {
            set: None,
            scale: None,
            warns: None,
            abbreviates: None,
            counts: None,
            ignores: None,
            debugs: None,
        }
    }

    /// Returns these choices with one more, which is the last on its matter.
    fn with(mut self, said: Said) -> Letters
        ensures { result ≡ spoken said self }
    {
        match said {
            Said::Set(set) => self.set = Some(set),
            Said::Scale(scale) => self.scale = Some(scale),
            Said::Warns(warns) => self.warns = Some(warns),
            Said::Abbreviates(abbreviates) => self.abbreviates = Some(abbreviates),
            Said::Counts(counts) => self.counts = Some(counts),
            Said::Ignores(ignores) => self.ignores = Some(ignores),
            Said::Debugs(debugs) => self.debugs = Some(debugs),
            Said::Nothing => {}
        }
        self
    }

    /// Returns these choices with those of `letters` behind them, read from left to right: the last choice on a matter holds.
    ///
    /// `e`, `s`, `w`, `i` and `D` come alone, or behind a `~` that turns them off; `~S` and `E1` choose nothing; `v5`
    /// and `v8` choose the version, `C0` and `C1` the character set. Upper and lower case are different letters. `None`
    /// where there is any other letter, and then none of them counts.
    pub fn and(self, letters: &[u8]) -> Option<Letters>
        ensures { result ≡ with_letters letters.now self }
    {
        let mut spoken = self;
        let mut rest = letters;
        while let Some((first, behind)) = rest.split_first() {
            if let Some(said) = alone(*first) {
                spoken = spoken.with(said);
                rest = behind;
                continue;
            }
            let (second, behind) = behind.split_first()?;
            spoken = spoken.with(paired(*first, *second)?);
            rest = behind;
        }
        Some(spoken)
    }

    /// Returns these choices, and on matters that they leave open those of `others`.
    pub fn over(self, others: Letters) -> Letters
        ensures { result ≡ spoken_over self others }
    {
        Letters {
            set: self.set.or(others.set),
            scale: self.scale.or(others.scale),
            warns: self.warns.or(others.warns),
            abbreviates: self.abbreviates.or(others.abbreviates),
            counts: self.counts.or(others.counts),
            ignores: self.ignores.or(others.ignores),
            debugs: self.debugs.or(others.debugs),
        }
    }

    /// Returns the character set of the sources: ISO Latin-1 where none was chosen.
    pub fn set(self) -> CharSet
        ensures { result ≡ set_of self }
    {
        self.set.unwrap_or(CharSet::Latin1)
    }

    /// Returns the scale of packed addresses, which gives the version: that of version 5 where none was chosen.
    pub fn scale(self) -> Scale
        ensures { result ≡ scale_of self }
    {
        self.scale.unwrap_or(Scale::Four)
    }

    /// Returns whether warnings are shown, as they are where nothing was chosen.
    pub fn warns(self) -> bool
        ensures { result ≡ warns self }
    {
        self.warns.unwrap_or(true)
    }

    /// Returns whether texts are abbreviated: not where nothing was said.
    pub fn abbreviates(self) -> bool
        ensures { result ≡ abbreviates self }
    {
        self.abbreviates.unwrap_or(false)
    }

    /// Returns whether statistics are shown: not where nothing was chosen.
    pub fn counts(self) -> bool
        ensures { result ≡ counts self }
    {
        self.counts.unwrap_or(false)
    }

    /// Returns whether `Switches` says nothing: it speaks where nothing was said.
    pub fn ignores(self) -> bool
        ensures { result ≡ ignores self }
    {
        self.ignores.unwrap_or(false)
    }

    /// Returns whether the language has the name `DEBUG`: not where nothing was said.
    pub fn debugs(self) -> bool
        ensures { result ≡ debugs self }
    {
        self.debugs.unwrap_or(false)
    }
}

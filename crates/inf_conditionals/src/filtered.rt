//! The results of tokens.

use inf_scanner::Place;

/// The way in which a token is handed on to the machine of the grammar.
#[derive(Clone, Copy)]
pub enum Forwarded {
    /// The token is kept: the grammar gets it.
    Kept,
    /// The token does not fit where it is.
    Unfit,
    /// The token belongs to a condition, and the grammar does not get it.
    Condition,
}

/// A `#` that was held back until the token behind it was known.
#[derive(Clone, Copy)]
pub struct Sign {
    pub place: Place,
    pub handed: Forwarded,
}

/// The result of a token: the ways in which the `#` before it and then the token itself are handed on; the place where a directive begins
/// that ends or turns a conditional which is not there; and the place where a conditional directive begins that has ended.
#[derive(Clone, Copy)]
pub struct Filtered {
    pub sign: Option<Sign>,
    pub token: Option<Forwarded>,
    pub unmatched: Option<Place>,
    pub ended: Option<Place>,
}

/// The place in the reading at which a token comes.
#[derive(Clone, Copy)]
pub struct Site {
    /// Tells whether the token is between the pieces of a source.
    pub is_between: bool,
    /// Tells whether the token is among those that are passed over behind a bad one.
    pub is_quiet: bool,
    /// The most tokens that a condition may have.
    pub longest: usize,
}

/// The result of a token of which nothing is handed on.
pub(crate) const NONE: Filtered = Filtered {
    sign: None,
    token: None,
    unmatched: None,
    ended: None,
};

/// The result of a token that a condition takes.
pub(crate) const TAKEN: Filtered = Filtered {
    sign: None,
    token: Some(Forwarded::Condition),
    unmatched: None,
    ended: None,
};

/// The result of a token that is kept.
pub(crate) const KEPT: Filtered = Filtered {
    sign: None,
    token: Some(Forwarded::Kept),
    unmatched: None,
    ended: None,
};

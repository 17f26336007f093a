//! The conditional directives that are being read.
ghost use Rattle.std.specs.Prelude.{◌≡◌};
ghost use Rattle.inf_conditionals.specs.Judging.{has_acted};

use inf_scanner::Place;

/// The effect of a conditional directive when its semicolon is read.
#[derive(Clone, Copy)]
pub enum Effect {
    /// A conditional is opened, whose first side is kept if the argument is true.
    Opens(bool),
    /// The other side of the latest conditional begins.
    Turns,
    /// The latest conditional is closed.
    Closes,
    /// The directive waits for nothing: its word ended a side that was left out.
    Nothing,
}

/// The next thing for which a directive that is being read waits.
#[derive(Clone, Copy)]
pub enum Awaits {
    /// The word of the directive, behind a `#` at the front of a piece.
    Word,
    /// A name; the first side is kept if it was declared or if not.
    Name(bool),
    /// The rest of the condition and the semicolon; the first side is kept if the condition is true or if not.
    Condition(bool),
    /// The semicolon of the directive.
    End(Effect),
}

impl Awaits {
    /// Returns whether the word of the directive has acted already.
    pub fn has_acted(self) -> bool
        ensures { result ≡ has_acted self }
    {
        matches!(self, Awaits::End(Effect::Nothing))
    }
}

/// A conditional directive that is being read, from its place on, or a `#` at the front of a piece.
#[derive(Clone, Copy)]
pub struct Pending {
    pub place: Place,
    /// Tells whether the directive is inside another one.
    pub is_inner: bool,
    pub awaits: Awaits,
}

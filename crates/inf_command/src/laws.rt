//! Laws of the words.
ghost use Rattle.std.specs.Prelude.{ℕ, List};
ghost use Rattle.inf_command.specs.Heads.{ComesFirst};

/// Shows that words of a head, followed by those of a command, choose from left to right as the words of the command
/// over those of the head, and that the same word is refused.
pub fn a_head_comes_first()
    ensures { (head words : List (List ℕ)) → ComesFirst head words }
{}

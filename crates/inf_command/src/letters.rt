//! The letters of a word that begins with `-`.
ghost use Rattle.std.specs.Prelude.{◌≡◌};
ghost use Rattle.inf_command.specs.Words.{chosen_letters};

use inf_letters::Letters;

/// Returns the choices of the letters of a word behind those of `before`. Returns `None` where there are no letters, or one is unknown.
pub(crate) fn chosen(before: Letters, letters: &[u8]) -> Option<Letters>
    ensures { result ≡ chosen_letters before letters.now }
{
    if letters.is_empty() {
        return None;
    }
    before.and(letters)
}

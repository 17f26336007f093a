//! Words of the header of a verb that has more tokens than there may be words.
ghost use Rattle.inf_unit.specs.AtHand.{unit as unit_of};
ghost use Rattle.inf_compilation.specs.Works.{work};
ghost use Rattle.inf_verb_lines.specs.Verbs.{word_came, word_sifted};
ghost use Rattle.std.specs.Prelude.{IfOk, OnOk, ◌≡◌};

use crate::verbs::word_at;
use inf_compilation::compilation::Compilation;
use inf_settings::bounds::Bounds;
use inf_unit::unit::Unit;
use std::alloc::AllocError;

/// Notes the last token of `unit`, a word of a verb, and returns whether the word came before, since the unit has too many tokens.
fn bring_word(unit: &mut Unit) -> Result<bool, AllocError>
    ensures { IfOk result (λ is_again. (unit_of unit.new, is_again) ≡ word_came (unit_of unit.old)) }
{
    let Some(word) = word_at(&unit.tokens, unit.last()) else {
        return Ok(false);
    };
    match &mut unit.long {
        Some(line) if !line.is_bad => {
            let is_new = line.add_word(word.text, u32::MAX)?;
            Ok(!is_new)
        }
        _ => Ok(false),
    }
}

/// Takes the last token, a word of the header of a verb that has more tokens than there may be words. Behind a word that came twice
/// it is not kept.
#[cold]
#[inline(never)]
pub fn sift_word<B: Bounds>(compilation: &mut Compilation<B>) -> Result<(), AllocError>
    ensures { OnOk result (work compilation.new ≡ word_sifted (work compilation.old)) }
{
    let is_again = bring_word(&mut compilation.unit)?;
    let hashing = compilation.output.names.hashing();
    compilation
        .unit
        .sift(compilation.alloc, hashing, is_again, true);
    Ok(())
}

//! The tokens of a verb's line.
use inf_test_lines::{number, six_bytes};
use inf_verbs::{LineToken, Noun};
use std::alloc::{AllocError, Global};

/// Returns the noun with this name, if there is one.
fn noun_of(name: &str) -> Option<LineToken> {
    Some(LineToken::Noun(match name {
        "noun" => Noun::Noun,
        "held" => Noun::Held,
        "multi" => Noun::Multi,
        "multiheld" => Noun::MultiHeld,
        "multiexcept" => Noun::MultiExcept,
        "multiinside" => Noun::MultiInside,
        "creature" => Noun::Creature,
        "special" => Noun::Special,
        "number" => Noun::Number,
        "topic" => Noun::Topic,
        _ => return None,
    }))
}

/// Returns the token that a letter with a number is, if the letter is one of a token. Words have twelve digits or more.
fn numbered(told: &str) -> Option<LineToken> {
    let (letter, digits) = told.split_at_checked(1)?;
    let value = (number(digits) % 65_536) as u16;
    Some(match letter {
        _ if told.len() >= 12 => return None,
        "f" => LineToken::Filter(value),
        "a" => LineToken::Attribute((value % 256) as u8),
        "s" => LineToken::Scope(value),
        "r" => LineToken::Routine(value),
        _ => return None,
    })
}

/// Appends words that have `/` between them as prepositions.
fn add_words(tokens: &mut Vec<LineToken>, words: &str) -> Result<(), AllocError> {
    let count = words.split('/').count();
    for (place, text) in words.split('/').enumerate() {
        tokens.push(LineToken::Preposition {
            text: six_bytes(text),
            is_first: place == 0,
            is_last: place.saturating_add(1) == count,
        })?;
    }
    Ok(())
}

/// Appends a token: a noun, a letter with a number, or else words.
fn add_token(tokens: &mut Vec<LineToken>, told: &str) -> Result<(), AllocError> {
    match noun_of(told).or(numbered(told)) {
        Some(token) => {
            tokens.push(token)?;
            Ok(())
        }
        None => add_words(tokens, told),
    }
}

/// Returns the tokens of a line, which come behind four words.
pub(crate) fn tokens_of(alloc: Global, command: &str) -> Result<Vec<LineToken>, AllocError> {
    let mut tokens = Vec::new(alloc);
    for told in command.split(' ').skip(4) {
        if told != "reverse" && !told.is_empty() {
            add_token(&mut tokens, told)?;
        }
    }
    Ok(tokens)
}

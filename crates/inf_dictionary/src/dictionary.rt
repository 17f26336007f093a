//! The words of a story, and how they are written.
ghost use Rattle.std.specs.Prelude.{◌≡◌, ◌<◌, ◌≤◌, ◌++◌, ◌∷◌, [], None, OnOk, OnErr, IfErr, IfOk, IfNone, IfSome, IsNone, MatchResult};
ghost use Rattle.std.specs.Prelude.{Some, length, true, unwrap_or};
ghost use Rattle.inf_dictionary.specs.{Texts.AreRising, Texts.AreWhole, Texts.texts_of, declared.dictionary.AddFault.TheVariants.Memory};
ghost use Rattle.inf_dictionary.specs.Words.{add_fault, dictionary_bytes, entry_bytes, first_misfit, is_misfit, verb_of, with_use, word_of};
ghost use Rattle.inf_settings.specs.declared.setting.Setting.{Setting};

use crate::places::Places;
use crate::uses::{Word, WordUse, is_of_other_verb, joined};
use inf_area::{Area, word_bytes};
use inf_settings::bounds::Bounds;
use std::alloc::{AllocError, AllocFailed, Global};
use std::collections::BTreeMap;
use std::marker::{Model, PhantomData};

/// The reason why a use of a word was not added.
#[derive(Clone, Copy, Debug)]
pub enum AddFault {
    /// The word is one of another verb.
    OtherVerb,
    /// There are as many words as there may be.
    Full,
    /// No memory was left.
    Memory,
}

impl<T: Drop> From<AllocFailed<T>> for AddFault {
    ghost from_gives = { λ _ fault. fault ≡ Memory };

    fn from(_error: AllocFailed<T>) -> AddFault {
        AddFault::Memory
    }
}

/// The words that were used so far, and the most that there may be.
#[derive(Drop)]
pub struct Dictionary<B: Bounds> {
    words: BTreeMap<[u8; 6], Word>,
    limit: usize,
    of: PhantomData<B>,
    ghost is_most: { limit ≡ B.most Setting.DictionaryEntries },
}

impl<B: Bounds> Model for Dictionary<B> {
    ghost use Rattle.std.specs.Prelude.{◌≤◌, length};
    ghost use Rattle.inf_dictionary.specs.{Texts.AreRising, Texts.AreWhole, Texts.texts_of, Words.Words};

    ghost Value = { Words };

    ghost view = { λ d. record { list = d.words.entries } };

    ghost invariant = { λ d. (length d.words.entries ≤ d.limit) × AreRising (texts_of d.words.entries) × AreWhole
        (texts_of d.words.entries) };
}

/// Returns whether `before` is `word`: a use that leads from one to the other says nothing new.
fn is_known(before: Option<Word>, word: Word) -> bool
    ensures { result ≡ true → before ≡ Some word }
{
    before == Some(word)
}

/// Appends the bytes of a word's entry.
fn add_entry(bytes: &mut Vec<u8>, text: &[u8; 6], word: Word) -> Result<(), AllocError>
    ensures { OnOk result (bytes.new.items ≡ bytes.old.items ++ entry_bytes (text.now, word)) }
{
    bytes.extend_from_slice(text)?;
    bytes.extend_from_slice(&[word.flags, word.verb_byte(), 0])
}

impl<B: Bounds> Dictionary<B> {
    /// Returns a dictionary without words, which takes `limit` words at most. It takes no memory until the first one comes.
    pub fn new(alloc: Global, limit: usize) -> Dictionary<B>
        requires { limit ≡ B.most Setting.DictionaryEntries }
        ensures { result ≡ record { list = [] } }
    {
        Dictionary {
            words: BTreeMap::new(alloc),
            limit,
            of: PhantomData,
        }
    }

    /// Returns the number of words, which is never more than there may be.
    pub fn len(&self) -> usize
        ensures value { result ≡ length self.now.list }
        ensures limited { result ≤ B.most Setting.DictionaryEntries }
    {
        self.words.len()
    }

    /// Returns the facts known of the word with `text`, if it was used.
    pub fn word(&self, text: &[u8; 6]) -> Option<Word>
        ensures { result ≡ word_of text.now self.now.list }
    {
        self.words.get(text).copied()
    }

    /// Returns the number of the verb that `text` is a word of, if it is one of a verb.
    pub fn verb_of(&self, text: &[u8; 6]) -> Option<u8>
        ensures { result ≡ verb_of text.now self.now.list }
    {
        self.word(text)?.verb
    }

    /// Adds a use of the word with `text`, and joins the facts that it says to those of other uses.
    ///
    /// Returns an error, the first that applies: `OtherVerb` where a word of a verb would become one of another, `Full` where the word is
    /// new and there are as many words as there may be, `Memory` where it is new and no memory is left. The words then stay as they were.
    pub fn add(&mut self, text: [u8; 6], word_use: WordUse, is_plural: bool) -> Result<(), AddFault>
        ensures ok { OnOk result (self.new ≡ with_use text word_use is_plural self.old) }
        ensures err { OnErr result (self.new ≡ self.old) }
        ensures fault { let fault = add_fault B.most (word_of text self.old.list) word_use self.old in
            MatchResult result (λ _. fault ≡ None) (λ refused. refused ≡ unwrap_or fault Memory) }
        ensures memory { IfErr result (λ refused. refused ≡ Memory → word_of text self.old.list ≡ None) }
    {
        let before = self.word(&text);
        if let Some(fault) = self.add_fault(before, word_use) {
            return Err(fault);
        }
        let word = joined(before, word_use, is_plural);
        // Most uses say nothing new.
        if is_known(before, word) {
            return Ok(());
        }
        self.words.insert(text, word)?;
        Ok(())
    }

    // Returns the reason why a use cannot be added of a word, of which `before` is known, whatever memory there is.
    fn add_fault(&self, before: Option<Word>, word_use: WordUse) -> Option<AddFault>
        ensures value { result ≡ add_fault B.most before word_use self.now }
        ensures room { IfNone result (IsNone before → length self.now.list < B.most Setting.DictionaryEntries) }
        ensures never { IfSome result (λ fault. fault ≡ Memory → ⊥) }
    {
        if is_of_other_verb(before, word_use) {
            return Some(AddFault::OtherVerb);
        }
        if before.is_none() && self.words.len() >= self.limit {
            return Some(AddFault::Full);
        }
        None
    }

    // Shows that the texts of the words rise and have six bytes each, at every moment.
    pub(crate) fn is_in_order(&self)
        ensures rising { AreRising (texts_of self.now.list) }
        ensures whole { AreWhole (texts_of self.now.list) }
    {
        let _words = &self.words;
    }

    /// Returns the place of the first of `texts` that cannot become a word of a new verb: it is a word of a verb
    /// already, or it repeats one before it. Returns `None` where all can.
    pub fn first_misfit(
        &self,
        alloc: Global,
        texts: &[[u8; 6]],
    ) -> Result<Option<usize>, AllocError>
        ensures { IfOk result (λ place. place ≡ first_misfit self.now.list 0 [] texts.now) }
    {
        let mut before = BTreeMap::new(alloc);
        let mut place = 0;
        for text in texts {
            if self.is_misfit(&before, text) {
                return Ok(Some(place));
            }
            before.insert(*text, ())?;
            place += 1;
        }
        Ok(None)
    }

    // Returns whether `text` cannot become a word of a new verb, behind the texts in `before`.
    #[tactic(auto, unfolding(crate::specs::Words::is_misfit))]
    fn is_misfit(&self, before: &BTreeMap<[u8; 6], ()>, text: &[u8; 6]) -> bool
        ensures { result ≡ is_misfit self.now.list before.now.entries text.now }
    {
        self.verb_of(text).is_some() || before.contains_key(text)
    }

    /// Appends the dictionary to `area`: how texts are parted into words, the length of an entry, the number of words,
    /// modulo 65536, and the entries in rising order of their texts. Where no memory is left, `area` stays as it was.
    pub fn write<A: Area>(&self, alloc: Global, area: &mut A) -> Result<(), AllocError>
        ensures ok { OnOk result (A.bytes area.new ≡ A.bytes area.old ++ dictionary_bytes self.now.list) }
        ensures err { OnErr result (A.bytes area.new ≡ A.bytes area.old) }
    {
        area.append(&self.bytes(alloc)?)
    }

    /// Returns the bytes of the dictionary.
    fn bytes(&self, alloc: Global) -> Result<Vec<u8>, AllocError>
        ensures { IfOk result (λ bytes. bytes.items ≡ dictionary_bytes self.now.list) }
    {
        let count = self.words.len();
        let [high, low] = word_bytes((count % 65536) as u16);
        let head = [3, b'.', b',', b'"', 9, high, low];
        let mut bytes = Vec::from_slice(alloc, &head)?;
        for (text, word) in &self.words {
            add_entry(&mut bytes, text, *word)?;
        }
        Ok(bytes)
    }

    /// Returns the places of the words in the dictionary as it is now.
    pub fn places(&self, alloc: Global) -> Result<Places, AllocError>
        ensures { IfOk result (λ places. places ≡ texts_of self.now.list) }
    {
        let mut texts = Vec::with_capacity(alloc, self.words.len())?;
        for (text, _) in &self.words {
            texts.push(*text)?;
        }
        Ok(Places::new(texts))
    }
}

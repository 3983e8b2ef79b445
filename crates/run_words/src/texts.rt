//! The words as texts, where each is one.
ghost use Rattle.std.specs.Prelude.{◌≡◌, false, map, MatchResult, true};
ghost use Rattle.std.specs.List.{list_all};
ghost use Rattle.std.specs.Str.{is_utf8};
ghost use Rattle.run_words.specs.declared.fault.WordsFault.TheVariants.{Usage};

use crate::fault::WordsFault;
use rtb_num::Txt;
use std::alloc::Global;

/// The words as texts, where each is one.
pub(crate) fn texts(alloc: Global, words: &[Txt]) -> Result<Vec<&str>, WordsFault>
    ensures { MatchResult result (λ v. (map (λ s. s.now) v.items ≡ words.now) × (list_all is_utf8 words.now ≡ true)) (λ e. e ≡ Usage → list_all is_utf8 words.now ≡ false) }
{
    let mut texts = Vec::with_capacity(alloc, words.len())?;
    for word in words {
        let text = text(word)?;
        if texts.push(text).is_err() {
            return Err(WordsFault::Memory);
        }
    }
    Ok(texts)
}

fn text(word: &Txt) -> Result<&str, WordsFault>
    ensures { MatchResult result (λ s. (s.now ≡ word.now) × (is_utf8 word.now ≡ true)) (λ e. (e ≡ Usage) × (is_utf8 word.now ≡ false)) }
{
    match std::str::from_utf8(word.as_bytes()) {
        Ok(text) => Ok(text),
        Err(_) => Err(WordsFault::Usage),
    }
}

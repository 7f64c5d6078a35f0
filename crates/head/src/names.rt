ghost use Rattle.std.specs.Prelude.{◌≡◌};
ghost use Rattle.byte_lines.specs.Strings.{named};

/// Whether the text is that word, whatever the case of its letters. The word is in small letters.
// Not the library's `eq_ignore_ascii_case`: that folds the word too, and the contract speaks of any word.
pub(crate) fn is_named(word: &[u8], text: &[u8]) -> bool
    ensures { result ≡ named word.now text.now }
{
    word.len() == text.len()
        && word
            .iter()
            .zip(text)
            .all(|(w, b)| *w == b.to_ascii_lowercase())
}

//! Words taken from the front of a list.

ghost use Rattle.std.specs.Prelude.{◌≡◌, drop, slice_index};

/// The first of some words, and 0 where there is none.
pub(crate) fn first_word(words: &[u32]) -> u32
    ensures { result ≡ slice_index words.now 0 }
{
    words.first().copied().unwrap_or(0)
}

/// The words after the first `n`.
pub(crate) fn words_after(words: &[u32], n: usize) -> &[u32]
    ensures { result.now ≡ drop n words.now }
{
    &words[n.min(words.len())..]
}

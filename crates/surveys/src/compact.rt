//! Words as bytes: a byte for a small word, five for any other.

ghost use Rattle.std.specs.Prelude.{◌≡◌, ◌++◌, All, OnOk};
ghost use Rattle.surveys.specs.inner.Compact.{bytes_of, with_seven_bits, word_bytes, words_in};
ghost use Rattle.rv_decode.specs.Word.{IsWord};

use std::alloc::AllocError;

#[tactic(auto, unfolding(crate::specs::inner::Compact::word_bytes))]
fn push_word(out: &mut Vec<u8>, word: u32) -> Result<(), AllocError>
    ensures bytes { OnOk result (out.new.items ≡ out.old.items ++ word_bytes word) }
    ensures word { IsWord word }
{
    if word < 128 {
        out.push(word as u8)?;
        return Ok(());
    }
    let second = word / 128;
    let third = second / 128;
    let fourth = third / 128;
    let fifth = fourth / 128;
    out.extend_from_slice(&[
        128 + fifth as u8,
        128 + (fourth % 128) as u8,
        128 + (third % 128) as u8,
        128 + (second % 128) as u8,
        (word % 128) as u8,
    ])
}

/// Appends the words' bytes: one for a word below 128, and for any other five, all but the last from 128 on.
pub fn push_bytes(out: &mut Vec<u8>, words: &[u32]) -> Result<(), AllocError>
    ensures bytes { OnOk result (out.new.items ≡ out.old.items ++ bytes_of words.now) }
    ensures back { OnOk result (words_in (bytes_of words.now) ≡ words.now) }
{
    for word in words {
        push_word(out, *word)?;
    }
    Ok(())
}

#[tactic(auto, unfolding(crate::specs::inner::Compact::with_seven_bits))]
fn joined(word: u32, byte: u8) -> u32
    ensures { result ≡ with_seven_bits word byte }
{
    word % 33554432 * 128 + u32::from(byte % 128)
}

/// Appends the words that these bytes say.
pub fn push_words(out: &mut Vec<u32>, bytes: &[u8]) -> Result<(), AllocError>
    ensures { OnOk result (out.new.items ≡ out.old.items ++ words_in bytes.now) }
{
    let mut word = 0;
    for byte in bytes {
        word = joined(word, *byte);
        if *byte < 128 {
            out.push(word)?;
            word = 0;
        }
    }
    Ok(())
}

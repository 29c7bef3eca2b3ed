//! Words of code.

ghost use Rattle.std.specs.Prelude.{◌<◌, ◌^◌};
ghost use Rattle.std.specs.List.{All};

/// Words have 32 bits, as their type says. It does nothing.
pub fn have_32_bits(words: &[u32])
    ensures { All (λ word. word < 2 ^ 32) words.now }
{}

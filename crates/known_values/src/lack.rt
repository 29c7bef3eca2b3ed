//! What a computation lacks.

ghost use Rattle.std.specs.Prelude.{◌≡◌, ◌+◌, ◌*◌, ◌%◌, ◌^◌, nat_lt, is_ok, IfOk};
ghost use Rattle.known_values.specs.declared.lack.Lack.TheVariants.{Memory};

use std::alloc::{AllocError, AllocFailed};

/// Why nothing was computed. It decides nothing.
#[derive(Clone, Copy, PartialEq, Eq)]
pub enum Lack {
    /// There is no memory.
    Memory,
    /// A number from 2^64 on came up.
    TooLarge,
}

impl From<AllocError> for Lack {
    ghost from_gives = { λ _ e. e ≡ Memory };

    fn from(_error: AllocError) -> Lack {
        Lack::Memory
    }
}

impl<T: Drop> From<AllocFailed<T>> for Lack {
    ghost from_gives = { λ _ e. e ≡ Memory };

    fn from(_error: AllocFailed<T>) -> Lack {
        Lack::Memory
    }
}

/// The sum, where it is below 2^64.
pub fn sum(left: u64, right: u64) -> Result<u64, Lack>
    ensures value { IfOk result (λ n. n ≡ left + right) }
    ensures large { is_ok result ≡ nat_lt (left + right) (2 ^ 64) }
{
    left.checked_add(right).ok_or(Lack::TooLarge)
}

/// The product, where it is below 2^64.
pub fn product(left: u64, right: u64) -> Result<u64, Lack>
    ensures value { IfOk result (λ n. n ≡ left * right) }
    ensures large { is_ok result ≡ nat_lt (left * right) (2 ^ 64) }
{
    left.checked_mul(right).ok_or(Lack::TooLarge)
}

/// What is left of `n` after as many times `modulus` as go into it; all of it, if `modulus` is 0.
pub fn remainder_by(n: u64, modulus: u64) -> u64
    ensures { result ≡ n % modulus }
{
    if modulus == 0 { n } else { n % modulus }
}

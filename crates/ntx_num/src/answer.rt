//! What a call answers where it cannot do what was asked.

ghost use Rattle.std.specs.Prelude.{◌≡◌};

use std::alloc::{AllocError, AllocFailed};

/// Memory ran out. No contract says when it does; some say when it does not.
#[derive(Clone, Copy, Debug, PartialEq, Eq)]
pub struct NoMemory;

/// Why a call that may run out of memory and may refuse gave no value.
#[derive(Clone, Copy, Debug, PartialEq, Eq, Drop)]
pub enum Fail<E> {
    /// Memory ran out.
    NoMemory,
    /// The call refuses what was asked.
    Is(E),
}

impl From<AllocError> for NoMemory {
    ghost from_gives = { λ _ e. e ≡ record {} };

    fn from(_error: AllocError) -> NoMemory {
        NoMemory
    }
}

impl<T: Drop> From<AllocFailed<T>> for NoMemory {
    ghost from_gives = { λ _ e. e ≡ record {} };

    fn from(_error: AllocFailed<T>) -> NoMemory {
        NoMemory
    }
}

impl<E> From<NoMemory> for Fail<E> {
    ghost use Rattle.ntx_num.specs.declared.answer.Fail.TheVariants.{NoMemory};

    ghost from_gives = { λ _ e. e ≡ NoMemory };

    fn from(_error: NoMemory) -> Fail<E> {
        Fail::NoMemory
    }
}

impl<E> From<AllocError> for Fail<E> {
    ghost use Rattle.ntx_num.specs.declared.answer.Fail.TheVariants.{NoMemory};

    ghost from_gives = { λ _ e. e ≡ NoMemory };

    fn from(_error: AllocError) -> Fail<E> {
        Fail::NoMemory
    }
}

impl<E, T: Drop> From<AllocFailed<T>> for Fail<E> {
    ghost use Rattle.ntx_num.specs.declared.answer.Fail.TheVariants.{NoMemory};

    ghost from_gives = { λ _ e. e ≡ NoMemory };

    fn from(_error: AllocFailed<T>) -> Fail<E> {
        Fail::NoMemory
    }
}

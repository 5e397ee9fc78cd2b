//! Why a workload did not end well.

use ntx_num::{Fail, NoMemory};
use std::alloc::{AllocError, AllocFailed};

/// Why a workload did not end well.
#[derive(Drop)]
pub enum Fault {
    /// The words name no workload and its size.
    Words,
    /// A library refused its part.
    Refused,
    /// Memory ran out.
    Memory,
}

impl From<NoMemory> for Fault {
    fn from(_: NoMemory) -> Fault {
        Fault::Memory
    }
}

impl<E: Drop> From<Fail<E>> for Fault {
    fn from(fail: Fail<E>) -> Fault {
        match fail {
            Fail::NoMemory => Fault::Memory,
            Fail::Is(_) => Fault::Refused,
        }
    }
}

impl From<AllocError> for Fault {
    fn from(_: AllocError) -> Fault {
        Fault::Memory
    }
}

impl<T: Drop> From<AllocFailed<T>> for Fault {
    fn from(_: AllocFailed<T>) -> Fault {
        Fault::Memory
    }
}

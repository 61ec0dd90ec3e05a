//! Why a relation is not added.
ghost use Rattle.std.specs.Prelude.{◌≡◌};
ghost use Rattle.sq_catalog.specs.declared.fault.CatalogFault.TheVariants.{Memory};

use std::alloc::{AllocError, AllocFailed};

/// Why a relation could not be added.
#[derive(Clone, Copy, Debug, Drop, PartialEq, Eq)]
pub enum CatalogFault {
    /// A relation has this name already.
    DuplicateName,
    /// Memory ran out.
    Memory,
}

impl From<AllocError> for CatalogFault {
    ghost from_gives = { λ _ fault. fault ≡ Memory };

    fn from(_: AllocError) -> CatalogFault {
        CatalogFault::Memory
    }
}

impl<T: Drop> From<AllocFailed<T>> for CatalogFault {
    ghost from_gives = { λ _ fault. fault ≡ Memory };

    fn from(_: AllocFailed<T>) -> CatalogFault {
        CatalogFault::Memory
    }
}

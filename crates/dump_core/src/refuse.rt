// Why a database has no script.
use point_core::Memory;
use std::alloc::{AllocError, AllocFailed};

/// Why a database has no script.
#[derive(Clone, Copy, Debug, PartialEq, Eq)]
pub enum DumpRefuse {
    /// A statement, or the script, would be longer than one may be.
    TooLong,
    Memory,
}

impl From<Memory> for DumpRefuse {
    ghost use Rattle.std.specs.Prelude.{◌≡◌};
    ghost use Rattle.dump_core.specs.declared.refuse.DumpRefuse.TheVariants.{Memory};

    ghost from_gives = { λ _ r. r ≡ Memory };

    fn from(_: Memory) -> DumpRefuse {
        DumpRefuse::Memory
    }
}

impl From<AllocError> for DumpRefuse {
    ghost use Rattle.std.specs.Prelude.{◌≡◌};
    ghost use Rattle.dump_core.specs.declared.refuse.DumpRefuse.TheVariants.{Memory};

    ghost from_gives = { λ _ r. r ≡ Memory };

    fn from(_: AllocError) -> DumpRefuse {
        DumpRefuse::Memory
    }
}

impl<T: Drop> From<AllocFailed<T>> for DumpRefuse {
    ghost use Rattle.std.specs.Prelude.{◌≡◌};
    ghost use Rattle.dump_core.specs.declared.refuse.DumpRefuse.TheVariants.{Memory};

    ghost from_gives = { λ _ r. r ≡ Memory };

    fn from(_: AllocFailed<T>) -> DumpRefuse {
        DumpRefuse::Memory
    }
}

// Why a heading, a relation or a statement is refused.
use crate::name::Name;
use point_core::{Code, Fault, Memory, Stop};
use std::alloc::{AllocError, AllocFailed};

/// Why a list of attributes is no heading.
#[derive(Clone, Copy, Debug, PartialEq, Eq)]
pub enum HeadingRefuse {
    /// The least index of an attribute whose name stands before it too.
    Repeated(usize),
    /// The names differ, and there are more than 16.
    TooMany,
    Memory,
}

/// Why rows that fit a heading are no relation.
#[derive(Clone, Copy, Debug, PartialEq, Eq)]
pub enum RowsRefuse {
    /// There are more than 100,000 different ones.
    TooMany,
    Memory,
}

/// Why a list of rows is no relation of a heading.
#[derive(Clone, Copy, Debug, PartialEq, Eq)]
pub enum RelationRefuse {
    /// A row does not fit the heading.
    Misfit,
    /// Each row fits, and there are more than 100,000 different ones.
    TooMany,
    Memory,
}

/// Why a statement is refused, or that memory ran out.
#[derive(Debug, Drop, PartialEq, Eq)]
pub enum Refuse {
    /// A refusal of the statement as a whole.
    Plain(Code),
    /// A refusal with a place.
    At(Fault),
    /// A broken constraint, by the relvar's name and the constraint's number, from 1.
    Broken {
        code: Code,
        relvar: Name,
        number: u32,
    },
    Memory,
}

impl From<Memory> for HeadingRefuse {
    ghost use Rattle.std.specs.Prelude.{◌≡◌};
    ghost use Rattle.value_core.specs.declared.refuse.HeadingRefuse.TheVariants.{Memory};

    ghost from_gives = { λ _ r. r ≡ Memory };

    fn from(_: Memory) -> HeadingRefuse {
        HeadingRefuse::Memory
    }
}

impl From<AllocError> for HeadingRefuse {
    ghost use Rattle.std.specs.Prelude.{◌≡◌};
    ghost use Rattle.value_core.specs.declared.refuse.HeadingRefuse.TheVariants.{Memory};

    ghost from_gives = { λ _ r. r ≡ Memory };

    fn from(_: AllocError) -> HeadingRefuse {
        HeadingRefuse::Memory
    }
}

impl<T: Drop> From<AllocFailed<T>> for HeadingRefuse {
    ghost use Rattle.std.specs.Prelude.{◌≡◌};
    ghost use Rattle.value_core.specs.declared.refuse.HeadingRefuse.TheVariants.{Memory};

    ghost from_gives = { λ _ r. r ≡ Memory };

    fn from(_: AllocFailed<T>) -> HeadingRefuse {
        HeadingRefuse::Memory
    }
}

impl From<Memory> for RowsRefuse {
    ghost use Rattle.std.specs.Prelude.{◌≡◌};
    ghost use Rattle.value_core.specs.declared.refuse.RowsRefuse.TheVariants.{Memory};

    ghost from_gives = { λ _ r. r ≡ Memory };

    fn from(_: Memory) -> RowsRefuse {
        RowsRefuse::Memory
    }
}

impl From<AllocError> for RowsRefuse {
    ghost use Rattle.std.specs.Prelude.{◌≡◌};
    ghost use Rattle.value_core.specs.declared.refuse.RowsRefuse.TheVariants.{Memory};

    ghost from_gives = { λ _ r. r ≡ Memory };

    fn from(_: AllocError) -> RowsRefuse {
        RowsRefuse::Memory
    }
}

impl<T: Drop> From<AllocFailed<T>> for RowsRefuse {
    ghost use Rattle.std.specs.Prelude.{◌≡◌};
    ghost use Rattle.value_core.specs.declared.refuse.RowsRefuse.TheVariants.{Memory};

    ghost from_gives = { λ _ r. r ≡ Memory };

    fn from(_: AllocFailed<T>) -> RowsRefuse {
        RowsRefuse::Memory
    }
}

impl From<Memory> for RelationRefuse {
    ghost use Rattle.std.specs.Prelude.{◌≡◌};
    ghost use Rattle.value_core.specs.declared.refuse.RelationRefuse.TheVariants.{Memory};

    ghost from_gives = { λ _ r. r ≡ Memory };

    fn from(_: Memory) -> RelationRefuse {
        RelationRefuse::Memory
    }
}

impl From<AllocError> for RelationRefuse {
    ghost use Rattle.std.specs.Prelude.{◌≡◌};
    ghost use Rattle.value_core.specs.declared.refuse.RelationRefuse.TheVariants.{Memory};

    ghost from_gives = { λ _ r. r ≡ Memory };

    fn from(_: AllocError) -> RelationRefuse {
        RelationRefuse::Memory
    }
}

impl<T: Drop> From<AllocFailed<T>> for RelationRefuse {
    ghost use Rattle.std.specs.Prelude.{◌≡◌};
    ghost use Rattle.value_core.specs.declared.refuse.RelationRefuse.TheVariants.{Memory};

    ghost from_gives = { λ _ r. r ≡ Memory };

    fn from(_: AllocFailed<T>) -> RelationRefuse {
        RelationRefuse::Memory
    }
}

impl From<RowsRefuse> for RelationRefuse {
    ghost use Rattle.std.specs.Prelude.{◌≡◌};
    ghost use Rattle.value_core.specs.Refusals.{relation_refusal_of};

    ghost from_gives = { λ rows r. r ≡ relation_refusal_of rows };

    fn from(rows: RowsRefuse) -> RelationRefuse {
        match rows {
            RowsRefuse::TooMany => RelationRefuse::TooMany,
            RowsRefuse::Memory => RelationRefuse::Memory,
        }
    }
}

impl From<Memory> for Refuse {
    ghost use Rattle.std.specs.Prelude.{◌≡◌};
    ghost use Rattle.value_core.specs.declared.refuse.Refuse.TheVariants.{Memory};

    ghost from_gives = { λ _ r. r ≡ Memory };

    fn from(_: Memory) -> Refuse {
        Refuse::Memory
    }
}

impl From<AllocError> for Refuse {
    ghost use Rattle.std.specs.Prelude.{◌≡◌};
    ghost use Rattle.value_core.specs.declared.refuse.Refuse.TheVariants.{Memory};

    ghost from_gives = { λ _ r. r ≡ Memory };

    fn from(_: AllocError) -> Refuse {
        Refuse::Memory
    }
}

impl<T: Drop> From<AllocFailed<T>> for Refuse {
    ghost use Rattle.std.specs.Prelude.{◌≡◌};
    ghost use Rattle.value_core.specs.declared.refuse.Refuse.TheVariants.{Memory};

    ghost from_gives = { λ _ r. r ≡ Memory };

    fn from(_: AllocFailed<T>) -> Refuse {
        Refuse::Memory
    }
}

impl From<Fault> for Refuse {
    ghost use Rattle.std.specs.Prelude.{◌≡◌};
    ghost use Rattle.value_core.specs.declared.refuse.Refuse.TheVariants.{At};

    ghost from_gives = { λ fault r. r ≡ At fault };

    fn from(fault: Fault) -> Refuse {
        Refuse::At(fault)
    }
}

impl From<Stop> for Refuse {
    ghost use Rattle.std.specs.Prelude.{◌≡◌};
    ghost use Rattle.value_core.specs.Refusals.{refusal_of};

    ghost from_gives = { λ stop r. r ≡ refusal_of stop };

    fn from(stop: Stop) -> Refuse {
        match stop {
            Stop::Fault(fault) => Refuse::At(fault),
            Stop::Memory => Refuse::Memory,
        }
    }
}

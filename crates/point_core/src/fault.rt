// Why a statement or an evaluation is refused, and where.
ghost use Rattle.std.specs.Prelude.{◌≡◌, ◌⊎◌, Some};
ghost use Rattle.point_core.specs.Faults.{fault_cmp};
ghost use Rattle.point_core.specs.LeastFault.{IsLeast, lesser_of};
ghost use Rattle.point_core.specs.Orders.{fault_order};
ghost use Rattle.point_core.specs.declared.fault.Stop.TheVariants.{Memory as OfMemory};

use crate::memory::Memory;
use std::alloc::{AllocError, AllocFailed};
use std::cmp::Ordering;

/// Where a token begins: its line, and its column in bytes, both from 1.
#[derive(Clone, Copy, Debug, PartialEq, Eq, PartialOrd, Ord)]
pub struct Place {
    pub line: u32,
    pub column: u32,
}

/// The codes of the refusals, each with what it is printed as and what brings it. Codes are in the order of their numbers.
#[derive(Clone, Copy, Debug, PartialEq, Eq, PartialOrd, Ord)]
pub enum Code {
    /// Not a statement: a character that begins no token, or a token with which no statement goes on.
    E01,
    /// Not UTF-8: bytes that are not UTF-8.
    E02,
    /// Statement too long: more than 1,048,576 bytes, the `;` counted.
    E03,
    /// Statement not ended: something other than white space and comments after the last `;`.
    E04,
    /// Nested too deep: a 65th level, or a 257th operator in force.
    E05,
    /// Literal out of range: a name of more than 64 bytes, a text of more than 255 bytes or with a control character below the
    /// space, a date or a moment that does not exist, or an integer that with its sign leaves 64 bits.
    E06,
    /// Unknown name: a name that is no relvar or view, no ordinal type, or no value of that type.
    E10,
    /// Name taken: a declaration of a name that a type, a relvar or a view has.
    E11,
    /// Wrong type: an operator, a function, a condition or an attribute with a value of another kind than it takes.
    E12,
    /// Headings differ: tuples, operands or an assignment of two headings where one is wanted.
    E13,
    /// No such attribute: a name that is no attribute of the relation.
    E14,
    /// Name repeated: a name twice where each may stand once.
    E15,
    /// Not an interval: PACK, UNPACK or USING on an attribute that is no interval.
    E16,
    /// Too many attributes: more than 16 of a heading, or more than four of a list.
    E17,
    /// Not sweepable: a condition under USING that cannot be decided by ends of intervals.
    E18,
    /// Attribute not kept: an attribute of USING that the operator loses or changes.
    E19,
    /// Wrong kind of relvar: an assignment to a view, or a foreign key that references one.
    E20,
    /// In use: the removal of what another view names or another relvar's foreign key references.
    E21,
    /// Too many: more values, types, constraints, relvars and views, or nodes of a view than there may be.
    E22,
    /// Out of range: a result of `+ - * /`, prefix `-`, COUNT or SUM beyond 64 bits.
    E30,
    /// Division by zero: `/` by 0.
    E31,
    /// No such point: NEXT, PRIOR, PRE, POST or a round bracket beyond the ends of the type.
    E32,
    /// Empty interval: ends between which there is no point.
    E33,
    /// Not one interval: UNION with a gap, INTERSECT without a common point, MINUS that leaves nothing or two parts.
    E34,
    /// Too many rows: a relation of more than 100,000 rows, also one in between.
    E35,
    /// Text too long: `||` that gives more than 255 bytes.
    E36,
    /// KEY broken: two rows that agree on the key.
    E40,
    /// PACKED ON broken: rows that could be packed.
    E41,
    /// WHEN UNPACKED ON broken: rows that agree on a key at some point.
    E42,
    /// FOREIGN KEY broken: a row whose values no row of the referenced relvar has.
    E43,
    /// HISTORY broken: a history in which two relvars overlap.
    E44,
    /// CONSTRAINT broken: a condition on the whole database that does not hold.
    E45,
    /// Database full: more than 200,000 rows of all relvars together.
    E46,
}

/// A code and the place of its cause. Faults are ordered by place, then by code.
#[derive(Clone, Copy, Debug, PartialEq, Eq, PartialOrd, Ord)]
pub struct Fault {
    pub place: Place,
    pub code: Code,
}

impl Fault {
    /// Where this fault stands against another: by their places, line before column, and then by their codes' numbers. It is the
    /// order that `Ord` gives.
    #[tactic(auto, using(crate::specs::FaultLaws::fault_by_place))]
    pub fn compare(self, other: Fault) -> Ordering
        ensures plain { result ≡ fault_cmp self other }
        ensures derived { result ≡ fault_order self other }
    {
        self.cmp(&other)
    }

    /// The lesser of the least fault so far, where there is one, and one more.
    pub fn least_of(so_far: Option<Fault>, next: Fault) -> Fault
        ensures lesser { Some result ≡ lesser_of so_far (Some next) }
        ensures least { IsLeast (λ fault. (so_far ≡ Some fault) ⊎ (next ≡ fault)) (Some result) }
    {
        match so_far {
            None => next,
            Some(least) => least.min(next),
        }
    }
}

/// Why an evaluation ends without a value.
#[derive(Clone, Copy, Debug, PartialEq, Eq)]
pub enum Stop {
    Fault(Fault),
    Memory,
}

impl From<Memory> for Stop {
    ghost from_gives = { λ _ s. s ≡ OfMemory };

    fn from(_: Memory) -> Stop {
        Stop::Memory
    }
}

impl From<AllocError> for Stop {
    ghost from_gives = { λ _ s. s ≡ OfMemory };

    fn from(_: AllocError) -> Stop {
        Stop::Memory
    }
}

impl<T: Drop> From<AllocFailed<T>> for Stop {
    ghost from_gives = { λ _ s. s ≡ OfMemory };

    fn from(_: AllocFailed<T>) -> Stop {
        Stop::Memory
    }
}

impl From<Fault> for Stop {
    ghost use Rattle.std.specs.Prelude.{◌≡◌};
    ghost use Rattle.point_core.specs.declared.fault.Stop.TheVariants.{Fault as Faulted};

    ghost from_gives = { λ f s. s ≡ Faulted f };

    fn from(fault: Fault) -> Stop {
        Stop::Fault(fault)
    }
}

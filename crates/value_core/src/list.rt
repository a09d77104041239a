// Lists that contracts read as lists.
ghost use Rattle.std.specs.Prelude.{◌≡◌, IfOk};

use crate::constraint::Constraint;
use crate::name::Name;
use point_core::Memory;
use std::alloc::Global;
use std::marker::Model;

/// A list, which contracts read as one.
#[derive(Drop)]
pub struct ListOf<T> {
    pub list: Vec<T>,
}

impl<T> Model for ListOf<T> {
    ghost use Rattle.std.specs.Prelude.{List};

    ghost Value = { List T };

    ghost view = { λ s. s.list.items };
}

/// Positions of attributes in a heading, from 0.
pub type Positions = ListOf<usize>;

/// Names, of attributes or of an ordinal type's values.
pub type Names = ListOf<Name>;

/// The constraints of one relvar, as they were written.
pub type Constraints = ListOf<Constraint>;

/// The declared ordinal types, in the order of declaration.
pub type OrdinalTypes = ListOf<OrdinalNames>;

/// An ordinal type: its name, and the names of its values in their order.
#[derive(Drop)]
pub struct OrdinalNames {
    pub name: Name,
    pub values: Names,
}

impl ListOf<usize> {
    /// Equal positions.
    pub fn copy(&self, alloc: Global) -> Result<Positions, Memory>
        ensures { IfOk result (λ positions. positions ≡ self.now) }
    {
        let list = Vec::from_slice(alloc, self.list.as_slice())?;
        Ok(Positions { list })
    }
}

impl ListOf<Name> {
    /// Equal names.
    pub fn copy(&self, alloc: Global) -> Result<Names, Memory>
        ensures { IfOk result (λ names. names ≡ self.now) }
    {
        let mut list = Vec::with_capacity(alloc, self.list.len())?;
        for name in &self.list {
            list.push(name.copy(alloc)?)?;
        }
        Ok(Names { list })
    }
}

impl ListOf<Constraint> {
    /// Equal constraints.
    pub fn copy(&self, alloc: Global) -> Result<Constraints, Memory>
        ensures { IfOk result (λ constraints. constraints ≡ self.now) }
    {
        let mut list = Vec::with_capacity(alloc, self.list.len())?;
        for constraint in &self.list {
            list.push(constraint.copy(alloc)?)?;
        }
        Ok(Constraints { list })
    }
}

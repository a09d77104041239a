// The database.
ghost use Rattle.std.specs.Prelude.{◌≡◌, ◌≤◌, ◌<ℤ◌, ◌+◌, ◌+ℤ◌, pos, is_ok, map, option_map, take, OnOk, OnErr, IsOk};
ghost use Rattle.std.specs.List.{All};
ghost use Rattle.point_core.specs.Whole.{greatest_whole};
ghost use Rattle.tree_core.specs.Items.{read_assignment, read_item};
ghost use Rattle.tree_core.specs.Relvars.{read_relvars, State};
ghost use Rattle.tree_core.specs.Trees.{read_test, read_tree};
ghost use Rattle.meaning_core.specs.Declarations.{counted, read_declaration, with_rule, without_group, without_rule};
ghost use Rattle.meaning_core.specs.StoredRows.{AreStored};
ghost use Rattle.meaning_core.specs.Typing.{IsListIf};
ghost use Rattle.meaning_core.specs.WellMade.{IsWellMade};
ghost use Rattle.meaning_core.specs.Updates.{IsTypedAssignment, IsTypedItem, IsTypedLog};
ghost use Rattle.algebra_core.specs.Costs.{test_cost};
ghost use Rattle.stored_views.specs.Operands.{IsStoredFor};
ghost use Rattle.stored_views.specs.Stored.{made_cost};
ghost use Rattle.assign_core.specs.Assignments.{constrained, IsAssigned, IsDone};
ghost use Rattle.assign_core.specs.Costs.{cost_of_assignments};
ghost use Rattle.assign_core.specs.Databases.{no_relvars, declared, IsKept};
ghost use Rattle.assign_core.specs.Items.{assignments_of};
ghost use Rattle.assign_core.specs.Logs.{counted_if, is_brought};
ghost use Rattle.assign_core.specs.NewRows.{joining, replacing, HasRoomIf, IsFoundIf, IsPaidFor, IsToldOf, StaysUnless, TakesNoneIf};
ghost use Rattle.assign_core.specs.Room.{opened, stored_in, with_stored, HasStoredRoom};

use crate::appending::append_all;
use crate::assigning::{assign, bring_counted, count_idle};
use crate::dropping::drop_group;
use crate::hashed::{Hashed, no_hashes};
use crate::keeping::keep_view;
use crate::new_rows::Coming;
use crate::performing::assignments;
use crate::rooms::rows_beside_logs;
use crate::rules::add_rule;
use indexmap::IndexMap;
use point_core::{Memory, Steps};
use relvar_logs::open_log;
use std::alloc::Global;
use std::marker::Model;
use std::sync::ledger::Ledger;
use tree_core::{Assignment, Declaration, Item, LogData, RelTest, RelTree, Relvars};
use value_core::{Name, OrdinalTypes, Positions, Refuse, Relation};

/// The ordinal types, relvars, views and logs, the database constraints, and how many statements were accepted. They are well made, each
/// constraint of a relvar and each database constraint holds, base relvars and stored views have at most 200,000 rows together, each log
/// tells what its relvar has after the last accepted statement, and each stored view has the rows of its expression.
#[derive(Drop)]
pub struct Database {
    alloc: Global,
    relvars: Relvars,
    hashed: Hashed,
    stored: Vec<Option<Relation>>,
}

impl Model for Database {
    ghost use Rattle.tree_core.specs.Relvars.{read_relvars};
    ghost use Rattle.tree_core.specs.contracts.relvar.Relvars as kept;
    ghost use Rattle.tree_core.specs.declared.relvar.Relvars.{Relvars};
    ghost use Rattle.meaning_core.specs.Logs.{AreInStep};
    ghost use Rattle.meaning_core.specs.StoredRows.{AreStored};
    ghost use Rattle.assign_core.specs.Databases.{IsKept};
    ghost use Rattle.assign_core.specs.Hashed.{AreHashed};
    ghost use Rattle.assign_core.specs.Keeping.{AreStoredIn};

    ghost Value = { Relvars };

    ghost coded = { kept.the_row.coded };

    ghost view = { λ d. d.relvars };

    ghost invariant = { λ d. IsKept (read_relvars d.relvars) × AreHashed d.hashed (read_relvars d.relvars).relvars × AreInStep (read_relvars d.relvars).accepted (read_relvars d.relvars).relvars
        × AreStoredIn (read_relvars d.relvars) d.stored.items };
}

impl Database {
    /// No relvars, views, types and database constraints. It takes no memory.
    pub fn new(alloc: Global) -> Database
        ensures { read_relvars result ≡ no_relvars }
    {
        Database {
            alloc,
            relvars: Relvars {
                list: IndexMap::new(alloc),
                ordinals: OrdinalTypes {
                    list: Vec::new(alloc),
                },
                rules: IndexMap::new(alloc),
                accepted: 0,
            },
            hashed: no_hashes(alloc),
            stored: Vec::new(alloc),
        }
    }

    /// The relvars and views, the ordinal types, and the database constraints.
    pub fn relvars(&self) -> &Relvars
        ensures state { read_relvars result.now ≡ read_relvars self.now }
        ensures kept { IsKept (read_relvars result.now) }
        ensures beside { HasStoredRoom (read_relvars result.now) }
    {
        &self.relvars
    }

    /// The rows of the stored views, one place for each entry of the relvars.
    pub fn stored(&self) -> &[Option<Relation>]
        ensures { AreStored (read_relvars self.now).relvars result.now }
    {
        self.stored.as_slice()
    }

    /// Declares all that the list says, or nothing for want of memory.
    pub fn declare(&mut self, list: Vec<Declaration>) -> Result<(), Memory>
        requires { IsWellMade (declared (read_relvars self.old) (map read_declaration list.items)) }
        ensures ok { OnOk result (read_relvars self.new ≡ declared (read_relvars self.old) (map read_declaration list.items)) }
        ensures err { OnErr result (read_relvars self.new ≡ read_relvars self.old) }
    {
        let before = (self.relvars.list.len(), self.relvars.ordinals.list.len());
        match append_all(self.alloc, &mut self.relvars, list) {
            Ok(()) => {
                self.hashed = no_hashes(self.alloc);
                Ok(())
            }
            Err(memory) => {
                cut(&mut self.relvars, before);
                self.hashed = no_hashes(self.alloc);
                Err(memory)
            }
        }
    }

    /// Declares a log of a base relvar, which begins with this statement, and counts the statement; or refuses and changes nothing. It is
    /// refused where base relvars, logs and stored views would have more than 200,000 rows together.
    pub fn open_log(&mut self, log: LogData) -> Result<(), Refuse>
        requires typed { IsTypedLog (read_relvars self.old) log }
        requires room { ((read_relvars self.old).accepted +ℤ pos 1) <ℤ greatest_whole }
        ensures { (mid : State) × IsDone result (read_relvars self.old) mid (opened (read_relvars self.old) log) × (read_relvars self.new ≡ counted_if (is_ok result) mid) }
    {
        let rows = rows_beside_logs(&self.relvars, self.stored.as_slice());
        self.hashed = no_hashes(self.alloc);
        open_log(self.alloc, &mut self.relvars, log, rows)
    }

    /// Declares a view whose rows are stored, and counts the statement; or refuses and changes nothing.
    ///
    /// It is refused with E35 at the expression's place where that means more than 100,000 rows; then with E46 where base relvars, logs and stored
    /// views would have more than 200,000 rows together.
    pub fn keep<L: Ledger>(
        &mut self,
        name: Name,
        tree: RelTree,
        steps: &mut Steps<L>,
    ) -> Result<(), Refuse>
        requires typed { IsStoredFor (read_relvars self.old) (read_tree tree) }
        requires made { IsWellMade (with_stored (read_relvars self.old) name (read_tree tree)) }
        requires room { ((read_relvars self.old).accepted +ℤ pos 1) <ℤ greatest_whole }
        ensures done { (mid : State) × IsDone result (read_relvars self.old) mid (stored_in (read_relvars self.old) name (read_tree tree)) × (read_relvars self.new ≡ counted_if (is_ok result) mid) }
        ensures cost { steps.new ≤ steps.old + made_cost (read_relvars self.old).relvars (read_tree tree) }
    {
        self.hashed = no_hashes(self.alloc);
        keep_view(
            self.alloc,
            &mut self.relvars,
            &mut self.stored,
            name,
            tree,
            steps,
        )
    }

    /// Gives each target the value of its source, all together, brings stored views up to date, and counts the statement; or refuses and changes
    /// nothing.
    ///
    /// The sources are evaluated in order. Each sees the relvars as they are, its own target alone with the value of the latest
    /// earlier assignment to it. The first fault counts; then more than 200,000 rows of base relvars, logs and stored views, or more than
    /// 100,000 of a log or a stored view; then the first broken constraint of a relvar; then the first broken database constraint.
    pub fn assign<L: Ledger>(
        &mut self,
        list: &[Assignment],
        steps: &mut Steps<L>,
    ) -> Result<(), Refuse>
        requires typed { All (IsTypedAssignment (read_relvars self.old)) (map read_assignment list.now) }
        requires room { ((read_relvars self.old).accepted +ℤ pos 1) <ℤ greatest_whole }
        ensures assigned { (mid : State) × IsAssigned result (read_relvars self.old) mid (map read_assignment list.now) × (read_relvars self.new ≡ counted_if (is_ok result) mid) }
        ensures cost { steps.new ≤ steps.old + cost_of_assignments (read_relvars self.old) (map read_assignment list.now) }
    {
        assign(
            self.alloc,
            &mut self.relvars,
            &mut self.hashed,
            &mut self.stored,
            list,
            steps,
        )
    }

    /// Performs the items of an assignment, all together, and counts the statement; or refuses and changes nothing. Each stands for
    /// assignments, which come in the order of the items.
    pub fn perform<L: Ledger>(&mut self, items: &[Item], steps: &mut Steps<L>) -> Result<(), Refuse>
        requires typed { All (IsTypedItem (read_relvars self.old)) (map read_item items.now) }
        requires room { ((read_relvars self.old).accepted +ℤ pos 1) <ℤ greatest_whole }
        ensures performed { (mid : State) × IsAssigned result (read_relvars self.old) mid (assignments_of (read_relvars self.old).relvars (map read_item items.now)) × (read_relvars self.new ≡ counted_if (is_ok result) mid) }
        ensures cost { steps.new ≤ steps.old + cost_of_assignments (read_relvars self.old) (assignments_of (read_relvars self.old).relvars (map read_item items.now)) }
    {
        let list = assignments(self.alloc, items, self.relvars())?;
        self.assign(&list, steps)
    }

    /// Puts the rows in place of those of the base relvar of this name, and counts the statement; or refuses and changes nothing.
    ///
    /// It is `Ok(false)`, with nothing changed and no step taken, where no base relvar of this name has the rows' heading, and where there is
    /// a log or a stored view.
    pub fn set_rows<L: Ledger>(
        &mut self,
        target: &Name,
        rows: Relation,
        steps: &mut Steps<L>,
    ) -> Result<bool, Refuse>
        requires room { ((read_relvars self.old).accepted +ℤ pos 1) <ℤ greatest_whole }
        ensures brought { (mid : State) × IsToldOf replacing result (read_relvars self.old) mid target.now rows × (read_relvars self.new ≡ counted_if (is_brought result) mid) }
        ensures found { IsFoundIf result (read_relvars self.old) target.now rows.heading }
        ensures beside { HasRoomIf replacing result (read_relvars self.old) target.now rows }
        ensures stays { StaysUnless result (read_relvars self.old) (read_relvars self.new) }
        ensures none { TakesNoneIf result steps.old steps.new }
        ensures cost { IsPaidFor replacing (read_relvars self.old) target.now rows steps.old steps.new }
    {
        bring_counted(
            self.alloc,
            &mut self.relvars,
            &mut self.hashed,
            target,
            Coming::Set,
            rows,
            steps,
        )
    }

    /// Adds the rows to those of the base relvar of this name, under USING of the attributes of a list where one is given, and counts the
    /// statement; or refuses and changes nothing.
    ///
    /// It is `Ok(false)`, with nothing changed and no step taken, where no base relvar of this name has the rows' heading, where it has
    /// more than 100,000 rows with them, each counted, where the list is not one attribute, and where there is a stored view. Where there is a
    /// log, it is so too with any list, where the relvar has several logs, and where base relvars or logs might have too many rows with these,
    /// each counted.
    pub fn insert_rows<L: Ledger>(
        &mut self,
        target: &Name,
        commalist: Option<&Positions>,
        rows: Relation,
        steps: &mut Steps<L>,
    ) -> Result<bool, Refuse>
        requires list { IsListIf rows.heading (option_map (λ l. l.now) commalist) }
        requires room { ((read_relvars self.old).accepted +ℤ pos 1) <ℤ greatest_whole }
        ensures brought { (mid : State) × IsToldOf (joining (option_map (λ l. l.now) commalist.entry)) result (read_relvars self.old) mid target.now rows × (read_relvars self.new ≡ counted_if (is_brought result) mid) }
        ensures found { IsFoundIf result (read_relvars self.old) target.now rows.heading }
        ensures beside { HasRoomIf (joining (option_map (λ l. l.now) commalist.entry)) result (read_relvars self.old) target.now rows }
        ensures stays { StaysUnless result (read_relvars self.old) (read_relvars self.new) }
        ensures none { TakesNoneIf result steps.old steps.new }
        ensures cost { IsPaidFor (joining (option_map (λ l. l.now) commalist.entry)) (read_relvars self.old) target.now rows steps.old steps.new }
    {
        bring_counted(
            self.alloc,
            &mut self.relvars,
            &mut self.hashed,
            target,
            Coming::Insert(commalist),
            rows,
            steps,
        )
    }

    /// Removes the relvar or view of this name, and with the view of a history its two relvars. The others keep their order.
    pub fn remove(&mut self, name: &Name) -> Result<(), Memory>
        requires well_made { IsWellMade (without_group name.now (read_relvars self.old)) }
        ensures state { read_relvars self.new ≡ without_group name.now (read_relvars self.old) }
        ensures ok { IsOk result }
    {
        self.hashed = no_hashes(self.alloc);
        drop_group(&mut self.relvars, &mut self.stored, name);
        Ok(())
    }

    /// Adds the database constraint behind the others, or refuses where it does not hold, and changes nothing.
    pub fn constrain<L: Ledger>(
        &mut self,
        name: Name,
        test: RelTest,
        steps: &mut Steps<L>,
    ) -> Result<(), Refuse>
        requires well_made { IsWellMade (with_rule name (read_test test) (read_relvars self.old)) }
        ensures done { IsDone result (read_relvars self.old) (read_relvars self.new) (constrained (read_relvars self.old) name (read_test test)) }
        ensures cost { steps.new ≤ steps.old + test_cost (read_relvars self.old).relvars (read_test test) }
    {
        add_rule(
            self.alloc,
            &mut self.relvars,
            self.stored.as_slice(),
            name,
            test,
            steps,
        )
    }

    /// Removes the database constraint of this name. The others keep their order.
    pub fn unconstrain(&mut self, name: &Name) -> Result<(), Memory>
        ensures state { read_relvars self.new ≡ without_rule name.now (read_relvars self.old) }
        ensures ok { IsOk result }
    {
        drop(self.relvars.rules.shift_remove(name));
        Ok(())
    }

    /// Counts a statement that is accepted and changes no base relvar. It takes no memory.
    pub fn accept(&mut self)
        requires room { ((read_relvars self.old).accepted +ℤ pos 1) <ℤ greatest_whole }
        ensures { read_relvars self.new ≡ counted (read_relvars self.old) }
    {
        count_idle(&mut self.relvars);
    }
}

// Cuts the relvars and types down to so many.
fn cut(relvars: &mut Relvars, to: (usize, usize))
    ensures list { relvars.new.list.entries ≡ take to.0 relvars.old.list.entries }
    ensures ordinals { relvars.new.ordinals ≡ take to.1 relvars.old.ordinals }
    ensures rules { relvars.new.rules ≡ relvars.old.rules }
    ensures accepted { relvars.new.accepted ≡ relvars.old.accepted }
{
    relvars.list.truncate(to.0);
    relvars.ordinals.list.truncate(to.1);
}

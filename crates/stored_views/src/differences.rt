// What the operands of stored views gain and lose.
ghost use Rattle.std.specs.Prelude.{◌≡◌, ◌||◌, get_or, is_some, length, option_map, IsTrue, None};
ghost use Rattle.tree_core.specs.Relvars.{read_relvars};
ghost use Rattle.tree_core.specs.Trees.{read_tree};
ghost use Rattle.meaning_core.specs.StoredViews.{is_name, is_stored_form, is_stored_part};
ghost use Rattle.stored_views.specs.ViewMoves.{difference_named, left_difference, left_of_part, operand_difference, right_difference, right_of_part};

use kept_views::{Differences, Moved};
use tree_core::{RelForm, RelTree, Relvars};
use value_core::Name;

/// What stands at a place, if anything does.
pub(crate) fn moved_at(list: &[Option<Moved>], at: usize) -> Option<&Moved>
    ensures { option_map (λ m. m.now) result ≡ get_or list.now at None }
{
    match list.get(at) {
        Some(place) => place.as_ref(),
        None => None,
    }
}

/// Whether an operand gains or loses rows.
pub(crate) fn is_any(told: Differences<'_>) -> bool
    ensures { result ≡ (is_some (option_map (λ m. m.now) told.entry.left) || is_some (option_map (λ m. m.now) told.entry.right)) }
{
    told.left.is_some() || told.right.is_some()
}

/// What the operands of the expression of a stored view gain and lose.
pub(crate) fn differences_of<'a>(
    relvars: &Relvars,
    differences: &'a [Option<Moved>],
    tree: &RelTree,
) -> Differences<'a>
    requires form { IsTrue (is_stored_form (read_tree tree.now)) }
    requires length { length differences.now ≡ length relvars.now.list.entries }
    ensures left { option_map (λ m. m.now) result.left ≡ left_difference differences.now (read_relvars relvars.now).relvars (read_tree tree.now) }
    ensures right { option_map (λ m. m.now) result.right ≡ right_difference differences.now (read_relvars relvars.now).relvars (read_tree tree.now) }
{
    match &tree.form {
        RelForm::Using(_, part) => part_differences(relvars, differences, part),
        RelForm::Pack(_, part) => Differences {
            left: operand_difference(relvars, differences, part),
            right: None,
        },
        _ => unreachable!(),
    }
}

// Those of the part of USING.
fn part_differences<'a>(
    relvars: &Relvars,
    differences: &'a [Option<Moved>],
    part: &RelTree,
) -> Differences<'a>
    requires form { IsTrue (is_stored_part (read_tree part.now)) }
    requires length { length differences.now ≡ length relvars.now.list.entries }
    ensures left { option_map (λ m. m.now) result.left ≡ left_of_part differences.now (read_relvars relvars.now).relvars (read_tree part.now) }
    ensures right { option_map (λ m. m.now) result.right ≡ right_of_part differences.now (read_relvars relvars.now).relvars (read_tree part.now) }
{
    match &part.form {
        RelForm::Infix(_, l, r) => {
            let left = operand_difference(relvars, differences, l);
            let right = operand_difference(relvars, differences, r);
            Differences { left, right }
        }
        RelForm::Project(_, t) => Differences {
            left: operand_difference(relvars, differences, t),
            right: None,
        },
        _ => unreachable!(),
    }
}

// What the relvar gains and loses that the operand names.
fn operand_difference<'a>(
    relvars: &Relvars,
    differences: &'a [Option<Moved>],
    operand: &RelTree,
) -> Option<&'a Moved>
    requires form { IsTrue (is_name (read_tree operand.now)) }
    requires length { length differences.now ≡ length relvars.now.list.entries }
    ensures { option_map (λ m. m.now) result ≡ operand_difference differences.now (read_relvars relvars.now).relvars (read_tree operand.now) }
{
    match &operand.form {
        RelForm::Named(name) => difference_named(relvars, differences, name),
        _ => unreachable!(),
    }
}

// What the relvar of this name gains and loses.
fn difference_named<'a>(
    relvars: &Relvars,
    differences: &'a [Option<Moved>],
    name: &Name,
) -> Option<&'a Moved>
    requires { length differences.now ≡ length relvars.now.list.entries }
    ensures { option_map (λ m. m.now) result ≡ difference_named differences.now (read_relvars relvars.now).relvars name.now }
{
    match relvars.list.get_full(name) {
        Some((at, _, _)) => moved_at(differences, at),
        None => None,
    }
}

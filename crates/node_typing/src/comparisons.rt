// Tests over typed operands.
ghost use Rattle.std.specs.Prelude.{◌≡◌, Err};
ghost use Rattle.scalar_core.specs.Answers.{Gives};
ghost use Rattle.tree_core.specs.Trees.{read_test, read_tree, relate};
ghost use Rattle.utd_syntax.specs.Read.{read_list};
ghost use Rattle.node_typing.specs.Nodes as rules;

use crate::lists::listed;
use crate::trees::heading;
use point_core::{Code, Fault, Place, Stop};
use relation_typing::same_heading;
use std::alloc::Global;
use tree_core::{RelTest, RelTree, RelateWord, TestForm};
use utd_syntax::{EmptinessWord, NameList, RelationComparison};
use value_core::Positions;

/// The comparison that a symbol names.
pub fn relation_named(word: RelationComparison) -> RelateWord
    ensures { result ≡ rules.relation_named word }
{
    match word {
        RelationComparison::Equal => RelateWord::Equal,
        RelationComparison::NotEqual => RelateWord::NotEqual,
        RelationComparison::Less => RelateWord::Less,
        RelationComparison::LessEqual => RelateWord::LessEqual,
        RelationComparison::Greater => RelateWord::Greater,
        RelationComparison::GreaterEqual => RelateWord::GreaterEqual,
    }
}

/// The comparison, by the unpacked rows where attributes are given.
fn relation_test(
    place: Place,
    word: RelateWord,
    commalist: Option<Positions>,
    left: RelTree,
    right: RelTree,
) -> RelTest
    ensures { read_test result ≡ relate place word commalist (read_tree left) (read_tree right) }
{
    RelTest {
        place,
        form: TestForm::Relate(word, commalist, left, right),
    }
}

/// The refusal of a comparison, whose operands are dropped.
fn refused(stop: Stop, left: RelTree, right: RelTree) -> Result<RelTest, Stop>
    ensures { result ≡ Err stop }
{
    drop(left);
    drop(right);
    Err(stop)
}

/// The comparison of operands with the same heading; else E13 at its place.
fn compared(
    place: Place,
    word: RelateWord,
    commalist: Option<Positions>,
    left: RelTree,
    right: RelTree,
) -> Result<RelTest, Stop>
    ensures { Gives read_test result (rules.compared place word commalist (read_tree left) (read_tree right)) }
{
    if same_heading(heading(&left), heading(&right)) {
        Ok(relation_test(place, word, commalist, left, right))
    } else {
        let code = Code::E13;
        refused(Stop::Fault(Fault { place, code }), left, right)
    }
}

/// A comparison of two relations: E13 at the place where their headings differ.
pub fn type_comparison(
    place: Place,
    word: RelateWord,
    left: RelTree,
    right: RelTree,
) -> Result<RelTest, Stop>
    ensures { Gives read_test result (rules.comparison_rule place word (read_tree left) (read_tree right)) }
{
    compared(place, word, None, left, right)
}

/// A comparison under USING: the refusals of the list, then E13 at the place where the headings differ.
pub fn type_using_comparison(
    alloc: Global,
    list: &NameList,
    place: Place,
    word: RelateWord,
    left: RelTree,
    right: RelTree,
) -> Result<RelTest, Stop>
    ensures { Gives read_test result (rules.using_comparison_rule (read_list list.now) place word (read_tree left) (read_tree right)) }
{
    match listed(alloc, heading(&left), heading(&right), list) {
        Ok(commalist) => compared(place, word, Some(commalist), left, right),
        Err(stop) => refused(stop, left, right),
    }
}

/// A test whether a relation has rows.
pub fn emptiness_test(place: Place, word: EmptinessWord, t: RelTree) -> RelTest
    ensures { read_test result ≡ rules.emptiness_test place word (read_tree t) }
{
    match word {
        EmptinessWord::IsEmpty => RelTest {
            place,
            form: TestForm::IsEmpty(t),
        },
        EmptinessWord::IsNotEmpty => RelTest {
            place,
            form: TestForm::IsNotEmpty(t),
        },
    }
}

// The rule of a stored view, made of its expression.
ghost use Rattle.std.specs.Prelude.{◌≡◌, ◌<◌, ℕ, length, IfOk, IsTrue};
ghost use Rattle.std.specs.List.{All};
ghost use Rattle.tree_core.specs.Trees.{heading_of, read_tree};
ghost use Rattle.meaning_core.specs.StoredViews.{is_stored_part};
ghost use Rattle.kept_views.specs.Kept.{positions_beside};
ghost use Rattle.stored_views.specs.Rules.{op_of, pack_rule, part_rule, rule_for, HasRule};

use kept_views::{KeptOp, KeptRule, positions_beside};
use point_core::Memory;
use std::alloc::Global;
use tree_core::{InfixWord, RelForm, RelTree};
use value_core::{Kind, ListOf, Name, Positions};

/// The rule by which the rows of a stored view with this expression are made.
pub fn rule_of(alloc: Global, tree: &RelTree) -> Result<KeptRule, Memory>
    requires { HasRule (read_tree tree.now) }
    ensures { IfOk result (λ rule. rule ≡ rule_for (read_tree tree.now)) }
{
    match &tree.form {
        RelForm::Using(commalist, part) => part_rule(alloc, commalist.list.as_slice(), part),
        RelForm::Pack(commalist, _) => pack_rule(alloc, commalist),
        _ => unreachable!(),
    }
}

// The rule of PACK on these attributes.
fn pack_rule(alloc: Global, commalist: &Positions) -> Result<KeptRule, Memory>
    ensures { IfOk result (λ rule. rule ≡ pack_rule commalist.now) }
{
    let left = commalist.copy(alloc)?;
    let right = ListOf {
        list: Vec::new(alloc),
    };
    Ok(KeptRule {
        op: KeptOp::Pack,
        left,
        right,
    })
}

// The rule of the part of USING, of which these attributes are listed.
fn part_rule(alloc: Global, commalist: &[usize], part: &RelTree) -> Result<KeptRule, Memory>
    requires form { IsTrue (is_stored_part (read_tree part.now)) }
    requires within { All (λ (i : ℕ). i < length (heading_of (read_tree part.now))) commalist.now }
    ensures { IfOk result (λ rule. rule ≡ part_rule commalist.now (read_tree part.now)) }
{
    match &part.form {
        RelForm::Infix(word, l, r) => {
            let left = beside(alloc, part, l, commalist)?;
            let right = beside(alloc, part, r, commalist)?;
            let op = op_of(*word);
            Ok(KeptRule { op, left, right })
        }
        RelForm::Project(kept, t) => {
            let left = beside(alloc, part, t, commalist)?;
            let kept = kept.copy(alloc)?;
            let right = ListOf {
                list: Vec::new(alloc),
            };
            Ok(KeptRule {
                op: KeptOp::Project(kept),
                left,
                right,
            })
        }
        _ => unreachable!(),
    }
}

// The operator of the word.
fn op_of(word: InfixWord) -> KeptOp
    ensures { result ≡ op_of word }
{
    match word {
        InfixWord::Union => KeptOp::Union,
        InfixWord::Intersect => KeptOp::Intersect,
        InfixWord::Minus => KeptOp::Minus,
        InfixWord::Join => KeptOp::Join,
        InfixWord::Matching => KeptOp::Matching,
        InfixWord::NotMatching => KeptOp::NotMatching,
    }
}

// The attributes of an expression.
fn attributes(tree: &RelTree) -> &[(Name, Kind)]
    ensures { result.now ≡ heading_of (read_tree tree.now) }
{
    tree.heading.attributes()
}

// Where the attributes at positions of the one expression stand among those of the other.
fn beside(
    alloc: Global,
    from: &RelTree,
    to: &RelTree,
    positions: &[usize],
) -> Result<Positions, Memory>
    requires { All (λ (i : ℕ). i < length (heading_of (read_tree from.now))) positions.now }
    ensures { IfOk result (λ v. v ≡ positions_beside (heading_of (read_tree from.now)) (heading_of (read_tree to.now)) positions.now) }
{
    let own = attributes(from);
    let other = attributes(to);
    let list = positions_beside(alloc, own, other, positions)?;
    Ok(ListOf { list })
}

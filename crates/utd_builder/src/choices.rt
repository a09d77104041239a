// Written by tools/grammar; change it there.
// Which of some words a token is.
ghost use Rattle.std.specs.Prelude.{◌≡◌};
ghost use Rattle.utd_builder.specs.Choices as choices;

use utd_syntax::{
    ComparisonWord, FunctionWord, InfixWord, PairWord, ProductWord, RelationComparison, SumWord,
    Terminal,
};

/// The comparison of scalars that the token is.
pub fn comparison_word(terminal: Terminal) -> Option<ComparisonWord>
    ensures { result ≡ choices.comparison_at terminal }
{
    match terminal {
        Terminal::Equal => Some(ComparisonWord::Equal),
        Terminal::NotEqual => Some(ComparisonWord::NotEqual),
        Terminal::Less => Some(ComparisonWord::Less),
        Terminal::LessEqual => Some(ComparisonWord::LessEqual),
        Terminal::Greater => Some(ComparisonWord::Greater),
        Terminal::GreaterEqual => Some(ComparisonWord::GreaterEqual),
        Terminal::In => Some(ComparisonWord::In),
        Terminal::Includes => Some(ComparisonWord::Includes),
        Terminal::IncludedIn => Some(ComparisonWord::IncludedIn),
        Terminal::Before => Some(ComparisonWord::Before),
        Terminal::After => Some(ComparisonWord::After),
        Terminal::Meets => Some(ComparisonWord::Meets),
        Terminal::Overlaps => Some(ComparisonWord::Overlaps),
        Terminal::Merges => Some(ComparisonWord::Merges),
        Terminal::Begins => Some(ComparisonWord::Begins),
        Terminal::Ends => Some(ComparisonWord::Ends),
        _ => None,
    }
}

/// The operator of a sum that the token is.
pub fn sum_word(terminal: Terminal) -> Option<SumWord>
    ensures { result ≡ choices.sum_word_at terminal }
{
    match terminal {
        Terminal::Plus => Some(SumWord::Plus),
        Terminal::Dash => Some(SumWord::Minus),
        Terminal::Bars => Some(SumWord::Concat),
        _ => None,
    }
}

/// The operator of a product that the token is.
pub fn product_word(terminal: Terminal) -> Option<ProductWord>
    ensures { result ≡ choices.product_word_at terminal }
{
    match terminal {
        Terminal::Star => Some(ProductWord::Times),
        Terminal::Slash => Some(ProductWord::Divide),
        _ => None,
    }
}

/// The function of one scalar that the token is.
pub fn function_word(terminal: Terminal) -> Option<FunctionWord>
    ensures { result ≡ choices.function_at terminal }
{
    match terminal {
        Terminal::Begin => Some(FunctionWord::Begin),
        Terminal::End => Some(FunctionWord::End),
        Terminal::Pre => Some(FunctionWord::Pre),
        Terminal::Post => Some(FunctionWord::Post),
        Terminal::Count => Some(FunctionWord::Count),
        Terminal::Next => Some(FunctionWord::Next),
        Terminal::Prior => Some(FunctionWord::Prior),
        _ => None,
    }
}

/// The function of two scalars that the token is.
pub fn pair_word(terminal: Terminal) -> Option<PairWord>
    ensures { result ≡ choices.pair_function_at terminal }
{
    match terminal {
        Terminal::Union => Some(PairWord::Union),
        Terminal::Intersect => Some(PairWord::Intersect),
        Terminal::Minus => Some(PairWord::Minus),
        _ => None,
    }
}

/// The infix of relations of one word that the token is.
pub fn infix_word(terminal: Terminal) -> Option<InfixWord>
    ensures { result ≡ choices.infix_word_at terminal }
{
    match terminal {
        Terminal::Union => Some(InfixWord::Union),
        Terminal::Intersect => Some(InfixWord::Intersect),
        Terminal::Minus => Some(InfixWord::Minus),
        Terminal::Join => Some(InfixWord::Join),
        Terminal::Matching => Some(InfixWord::Matching),
        _ => None,
    }
}

/// The comparison of relations that the token is.
pub fn relation_comparison(terminal: Terminal) -> Option<RelationComparison>
    ensures { result ≡ choices.relation_comparison_at terminal }
{
    match terminal {
        Terminal::Equal => Some(RelationComparison::Equal),
        Terminal::NotEqual => Some(RelationComparison::NotEqual),
        Terminal::Less => Some(RelationComparison::Less),
        Terminal::LessEqual => Some(RelationComparison::LessEqual),
        Terminal::Greater => Some(RelationComparison::Greater),
        Terminal::GreaterEqual => Some(RelationComparison::GreaterEqual),
        _ => None,
    }
}

/// Whether the token stands between two relations.
pub fn is_infix(terminal: Terminal) -> bool
    ensures { result ≡ choices.is_infix terminal }
{
    match terminal {
        Terminal::Union => true,
        Terminal::Intersect => true,
        Terminal::Minus => true,
        Terminal::Join => true,
        Terminal::Matching => true,
        Terminal::Not => true,
        _ => false,
    }
}

/// Whether the token stands behind a relation, and what it does with it follows.
pub fn is_postfix(terminal: Terminal) -> bool
    ensures { result ≡ choices.is_postfix terminal }
{
    match terminal {
        Terminal::OpenBrace => true,
        Terminal::Where => true,
        Terminal::Rename => true,
        _ => false,
    }
}

/// Whether the token begins a constraint.
pub fn is_constraint(terminal: Terminal) -> bool
    ensures { result ≡ choices.is_constraint terminal }
{
    match terminal {
        Terminal::Key => true,
        Terminal::Foreign => true,
        Terminal::Packed => true,
        Terminal::When => true,
        Terminal::Using => true,
        _ => false,
    }
}

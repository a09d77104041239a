// What a token is.
use point_core::Place;
use std::borrow::CowSlice;
use std::marker::Model;

/// What a token is: a word, reserved or a name, an integer, a text, or a symbol.
#[derive(Clone, Copy, Debug, PartialEq, Eq)]
pub enum TokenKind {
    Word,
    Integer,
    Text,
    Symbol,
}

/// The characters of a token in UTF-8. Of a text they are those between its quotes, a doubled quote
/// among them being one: the bytes are copied where there is such a quote, and borrowed from the text else.
#[derive(Debug, Drop)]
pub struct TokenBytes<'a> {
    pub list: CowSlice<'a, u8>,
}

impl<'a> Model for TokenBytes<'a> {
    ghost use Rattle.std.specs.Prelude.{ℕ, List};
    ghost use Rattle.std.specs.Cow.{cow_slice_items};

    ghost Value = { List ℕ };

    ghost view = { λ b. cow_slice_items b.list };
}

/// A token, and the place of its first byte.
#[derive(Debug, Drop)]
pub struct Token<'a> {
    pub kind: TokenKind,
    pub place: Place,
    pub bytes: TokenBytes<'a>,
}

/// The tokens of a statement, in the order of the text.
#[derive(Debug, Drop)]
pub struct TokenList<'a> {
    pub list: Vec<Token<'a>>,
}

impl<'a> Model for TokenList<'a> {
    ghost use Rattle.std.specs.Prelude.{List};
    ghost use Rattle.utd_lexer.specs.declared.token.Token.{Token as AnyToken};

    ghost Value = { List AnyToken };

    ghost view = { λ b. b.list.items };
}

// What a token is to the grammar.
ghost use Rattle.std.specs.Prelude.{◌≡◌, ℕ, List, [], ◌∷◌};
ghost use Rattle.utd_syntax.specs.Table.{same_bytes};
ghost use Rattle.utd_syntax.specs.Terminals as terminals;
ghost use Rattle.utd_syntax.specs.Terminals.{spelled_among, word_terminal, symbol_terminal};
ghost use Rattle.utd_parser.specs.Tokens as tokens;

use utd_lexer::{Token, TokenKind};
use utd_syntax::Terminal;

// How a reserved word or a symbol is spelled; of the other kinds one spelling.
fn spelling(terminal: Terminal) -> &'static [u8]
    ensures { result.now ≡ terminals.spelling terminal }
{
    match terminal {
        Terminal::All => b"ALL",
        Terminal::After => b"AFTER",
        Terminal::And => b"AND",
        Terminal::As => b"AS",
        Terminal::Ask => b"ASK",
        Terminal::Before => b"BEFORE",
        Terminal::Begin => b"BEGIN",
        Terminal::Begins => b"BEGINS",
        Terminal::Boolean => b"BOOLEAN",
        Terminal::But => b"BUT",
        Terminal::By => b"BY",
        Terminal::Char => b"CHAR",
        Terminal::Constraint => b"CONSTRAINT",
        Terminal::Count => b"COUNT",
        Terminal::Date => b"DATE",
        Terminal::Delete => b"DELETE",
        Terminal::Drop => b"DROP",
        Terminal::End => b"END",
        Terminal::Ends => b"ENDS",
        Terminal::Extend => b"EXTEND",
        Terminal::False => b"FALSE",
        Terminal::First => b"FIRST",
        Terminal::Foreign => b"FOREIGN",
        Terminal::History => b"HISTORY",
        Terminal::In => b"IN",
        Terminal::IncludedIn => b"INCLUDED_IN",
        Terminal::Includes => b"INCLUDES",
        Terminal::Insert => b"INSERT",
        Terminal::Integer => b"INTEGER",
        Terminal::Intersect => b"INTERSECT",
        Terminal::Interval => b"INTERVAL",
        Terminal::IsEmpty => b"IS_EMPTY",
        Terminal::IsNotEmpty => b"IS_NOT_EMPTY",
        Terminal::Join => b"JOIN",
        Terminal::Key => b"KEY",
        Terminal::Last => b"LAST",
        Terminal::Matching => b"MATCHING",
        Terminal::Max => b"MAX",
        Terminal::Meets => b"MEETS",
        Terminal::Merges => b"MERGES",
        Terminal::Min => b"MIN",
        Terminal::Minus => b"MINUS",
        Terminal::Moment => b"MOMENT",
        Terminal::Next => b"NEXT",
        Terminal::Not => b"NOT",
        Terminal::On => b"ON",
        Terminal::Or => b"OR",
        Terminal::Overlaps => b"OVERLAPS",
        Terminal::Pack => b"PACK",
        Terminal::Packed => b"PACKED",
        Terminal::Portion => b"PORTION",
        Terminal::Post => b"POST",
        Terminal::Pre => b"PRE",
        Terminal::Print => b"PRINT",
        Terminal::Prior => b"PRIOR",
        Terminal::References => b"REFERENCES",
        Terminal::Relation => b"RELATION",
        Terminal::Rename => b"RENAME",
        Terminal::Sum => b"SUM",
        Terminal::Summarize => b"SUMMARIZE",
        Terminal::Terminate => b"TERMINATE",
        Terminal::Then => b"THEN",
        Terminal::True => b"TRUE",
        Terminal::Tuple => b"TUPLE",
        Terminal::TypeWord => b"TYPE",
        Terminal::Union => b"UNION",
        Terminal::Unpack => b"UNPACK",
        Terminal::Unpacked => b"UNPACKED",
        Terminal::Update => b"UPDATE",
        Terminal::Using => b"USING",
        Terminal::Var => b"VAR",
        Terminal::Virtual => b"VIRTUAL",
        Terminal::When => b"WHEN",
        Terminal::Where => b"WHERE",
        Terminal::Open => b"(",
        Terminal::Close => b")",
        Terminal::OpenBracket => b"[",
        Terminal::CloseBracket => b"]",
        Terminal::OpenBrace => b"{",
        Terminal::CloseBrace => b"}",
        Terminal::Comma => b",",
        Terminal::Semicolon => b";",
        Terminal::Colon => b":",
        Terminal::Assign => b":=",
        Terminal::Equal => b"=",
        Terminal::NotEqual => b"<>",
        Terminal::Less => b"<",
        Terminal::LessEqual => b"<=",
        Terminal::Greater => b">",
        Terminal::GreaterEqual => b">=",
        Terminal::Plus => b"+",
        Terminal::Dash => b"-",
        Terminal::Star => b"*",
        Terminal::Slash => b"/",
        Terminal::Bars => b"||",
        Terminal::Dot => b".",
        Terminal::Name => b"X",
        Terminal::Digits => b"0",
        Terminal::Quoted => b"",
        Terminal::Finish => b"",
    }
}

/// The bytes are the same.
pub fn is_same(left: &[u8], right: &[u8]) -> bool
    ensures { result ≡ same_bytes left.now right.now }
{
    // Most that are compared differ in their length.
    if left.len() != right.len() {
        return false;
    }
    left == right
}

// The one of these that is spelled so, or the other.
fn spelled_among(list: &[Terminal], other: Terminal, bytes: &[u8]) -> Terminal
    ensures { result ≡ spelled_among list.now other bytes.now }
{
    let mut rest = list;
    while let Some((first, more)) = rest.split_first() {
        if is_same(spelling(*first), bytes) {
            return *first;
        }
        rest = more;
    }
    other
}

// The reserved words that begin with these two bytes; where few begin with the first, all of those.
fn words_from(first: u8, second: u8) -> &'static [Terminal]
    ensures { (rest : List ℕ) → spelled_among result.now Terminal.Name (first ∷ (second ∷ rest)) ≡ word_terminal (first ∷ (second ∷ rest)) }
{
    match first {
        b'A' => match second {
            b'F' => &[Terminal::After],
            b'L' => &[Terminal::All],
            b'N' => &[Terminal::And],
            b'S' => &[Terminal::As, Terminal::Ask],
            _ => &[],
        },
        b'B' => match second {
            b'E' => &[Terminal::Before, Terminal::Begin, Terminal::Begins],
            b'O' => &[Terminal::Boolean],
            b'U' => &[Terminal::But],
            b'Y' => &[Terminal::By],
            _ => &[],
        },
        b'C' => &[Terminal::Char, Terminal::Constraint, Terminal::Count],
        b'D' => &[Terminal::Date, Terminal::Delete, Terminal::Drop],
        b'E' => &[Terminal::End, Terminal::Ends, Terminal::Extend],
        b'F' => &[Terminal::False, Terminal::First, Terminal::Foreign],
        b'H' => &[Terminal::History],
        b'I' => match second {
            b'N' => &[
                Terminal::In,
                Terminal::IncludedIn,
                Terminal::Includes,
                Terminal::Insert,
                Terminal::Integer,
                Terminal::Intersect,
                Terminal::Interval,
            ],
            b'S' => &[Terminal::IsEmpty, Terminal::IsNotEmpty],
            _ => &[],
        },
        b'J' => &[Terminal::Join],
        b'K' => &[Terminal::Key],
        b'L' => &[Terminal::Last],
        b'M' => match second {
            b'A' => &[Terminal::Matching, Terminal::Max],
            b'E' => &[Terminal::Meets, Terminal::Merges],
            b'I' => &[Terminal::Min, Terminal::Minus],
            b'O' => &[Terminal::Moment],
            _ => &[],
        },
        b'N' => &[Terminal::Next, Terminal::Not],
        b'O' => &[Terminal::On, Terminal::Or, Terminal::Overlaps],
        b'P' => match second {
            b'A' => &[Terminal::Pack, Terminal::Packed],
            b'O' => &[Terminal::Portion, Terminal::Post],
            b'R' => &[Terminal::Pre, Terminal::Print, Terminal::Prior],
            _ => &[],
        },
        b'R' => &[Terminal::References, Terminal::Relation, Terminal::Rename],
        b'S' => &[Terminal::Sum, Terminal::Summarize],
        b'T' => match second {
            b'E' => &[Terminal::Terminate],
            b'H' => &[Terminal::Then],
            b'R' => &[Terminal::True],
            b'U' => &[Terminal::Tuple],
            b'Y' => &[Terminal::TypeWord],
            _ => &[],
        },
        b'U' => &[
            Terminal::Union,
            Terminal::Unpack,
            Terminal::Unpacked,
            Terminal::Update,
            Terminal::Using,
        ],
        b'V' => &[Terminal::Var, Terminal::Virtual],
        b'W' => &[Terminal::When, Terminal::Where],
        _ => &[],
    }
}

// The symbols that begin with this byte.
fn symbols_from(first: u8) -> &'static [Terminal]
    ensures { (rest : List ℕ) → spelled_among result.now Terminal.Finish (first ∷ rest) ≡ symbol_terminal (first ∷ rest) }
{
    match first {
        b'(' => &[Terminal::Open],
        b')' => &[Terminal::Close],
        b'[' => &[Terminal::OpenBracket],
        b']' => &[Terminal::CloseBracket],
        b'{' => &[Terminal::OpenBrace],
        b'}' => &[Terminal::CloseBrace],
        b',' => &[Terminal::Comma],
        b';' => &[Terminal::Semicolon],
        b':' => &[Terminal::Colon, Terminal::Assign],
        b'=' => &[Terminal::Equal],
        b'<' => &[Terminal::NotEqual, Terminal::Less, Terminal::LessEqual],
        b'>' => &[Terminal::Greater, Terminal::GreaterEqual],
        b'+' => &[Terminal::Plus],
        b'-' => &[Terminal::Dash],
        b'*' => &[Terminal::Star],
        b'/' => &[Terminal::Slash],
        b'|' => &[Terminal::Bars],
        b'.' => &[Terminal::Dot],
        _ => &[],
    }
}

// The symbol that is this byte alone.
fn lone_symbol(byte: u8) -> Terminal
    ensures { result ≡ symbol_terminal (byte ∷ []) }
{
    match byte {
        b'(' => Terminal::Open,
        b')' => Terminal::Close,
        b'[' => Terminal::OpenBracket,
        b']' => Terminal::CloseBracket,
        b'{' => Terminal::OpenBrace,
        b'}' => Terminal::CloseBrace,
        b',' => Terminal::Comma,
        b';' => Terminal::Semicolon,
        b':' => Terminal::Colon,
        b'=' => Terminal::Equal,
        b'<' => Terminal::Less,
        b'>' => Terminal::Greater,
        b'+' => Terminal::Plus,
        b'-' => Terminal::Dash,
        b'*' => Terminal::Star,
        b'/' => Terminal::Slash,
        b'.' => Terminal::Dot,
        _ => Terminal::Finish,
    }
}

fn word_terminal(bytes: &[u8]) -> Terminal
    ensures { result ≡ word_terminal bytes.now }
{
    let Some((first, behind)) = bytes.split_first() else {
        return Terminal::Name;
    };
    // Each reserved word has two letters or more.
    let Some((second, _)) = behind.split_first() else {
        return Terminal::Name;
    };
    spelled_among(words_from(*first, *second), Terminal::Name, bytes)
}

fn symbol_terminal(bytes: &[u8]) -> Terminal
    ensures { result ≡ symbol_terminal bytes.now }
{
    match bytes.split_first() {
        None => Terminal::Finish,
        Some((first, rest)) => {
            if rest.is_empty() {
                lone_symbol(*first)
            } else {
                spelled_among(symbols_from(*first), Terminal::Finish, bytes)
            }
        }
    }
}

// What a token of this kind with these bytes is.
fn terminal_by(kind: TokenKind, bytes: &[u8]) -> Terminal
    ensures { result ≡ tokens.terminal_of kind bytes.now }
{
    match kind {
        TokenKind::Word => word_terminal(bytes),
        TokenKind::Symbol => symbol_terminal(bytes),
        TokenKind::Integer => Terminal::Digits,
        TokenKind::Text => Terminal::Quoted,
    }
}

/// What a token is to the grammar.
pub fn terminal_of(token: &Token<'_>) -> Terminal
    ensures { result ≡ tokens.terminal_of token.now.kind token.now.bytes }
{
    terminal_by(token.kind, token.bytes.list.as_slice())
}

/// The bytes of a token.
pub fn bytes_of<'a>(token: &'a Token<'_>) -> &'a [u8]
    ensures { result.now ≡ token.now.bytes }
{
    token.bytes.list.as_slice()
}

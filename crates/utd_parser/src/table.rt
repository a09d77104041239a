// What the next token does where a form may stand.
ghost use Rattle.std.specs.Prelude.{◌≡◌, [], if◌then◌else◌};
ghost use Rattle.utd_syntax.specs.Table as table;
ghost use Rattle.utd_parser.specs.Closing.{ends_at_closing};
ghost use Rattle.utd_parser.specs.Forms.{form_of, rows_of, row_of, spelled_as, turn_of};

use crate::form::{Form, PlaceWord, Row, Taking, Turn};
use crate::listed::{may_end, rows_at};
use crate::terminals::is_same;
use utd_syntax::Terminal;

fn number(terminal: Terminal) -> u8
    ensures { result ≡ table.number terminal }
{
    terminal as u8
}

fn is(left: Terminal, right: Terminal) -> bool
    ensures { result ≡ table.same left right }
{
    number(left) == number(right)
}

fn spelled_as(word: PlaceWord) -> &'static [u8]
    ensures { result.now ≡ spelled_as word }
{
    match word {
        PlaceWord::Ordinal => b"ORDINAL",
        PlaceWord::Since => b"SINCE",
        PlaceWord::During => b"DURING",
        PlaceWord::Over => b"OVER",
        PlaceWord::At => b"AT",
        PlaceWord::Log => b"LOG",
        PlaceWord::Of => b"OF",
        PlaceWord::Kept => b"KEPT",
    }
}

// What the row does with its token before this one.
fn chosen(row: &Row, behind: Terminal) -> Turn
    ensures { turn_of result ≡ table.chosen (row_of row.now) behind }
{
    match row {
        Row::On(_, how, next) => Turn::Takes(*how, *next),
        Row::Spelt(_, next) => Turn::Takes(Taking::Plain, *next),
        Row::Before(_, this, how, next, other_how, other_next) => {
            if is(*this, behind) {
                Turn::Takes(*how, *next)
            } else {
                Turn::Takes(*other_how, *other_next)
            }
        }
    }
}

// Whether the row is for this token.
fn fits(row: &Row, terminal: Terminal, bytes: &[u8]) -> bool
    ensures { result ≡ table.fits (row_of row.now) terminal bytes.now }
{
    match row {
        Row::On(wanted, _, _) => is(*wanted, terminal),
        Row::Spelt(word, _) => is(Terminal::Name, terminal) && is_same(spelled_as(*word), bytes),
        Row::Before(wanted, _, _, _, _, _) => is(*wanted, terminal),
    }
}

// What the first row for this token does.
fn find(
    rows: &'static [Row],
    ends: bool,
    terminal: Terminal,
    bytes: &[u8],
    behind: Terminal,
) -> Turn
    ensures { turn_of result ≡ table.find (rows_of rows.now) ends terminal bytes.now behind }
{
    let mut rest = rows;
    while let Some((row, more)) = rest.split_first() {
        if fits(row, terminal, bytes) {
            return chosen(row, behind);
        }
        rest = more;
    }
    if ends { Turn::Ends } else { Turn::Never }
}

// What is done with a single token, if it is the one.
fn single(fits: bool) -> Turn
    ensures { turn_of result ≡ (if fits then table.Takes table.Plain [] else table.Never) }
{
    if fits {
        Turn::Takes(Taking::Plain, &[])
    } else {
        Turn::Never
    }
}

/// What the next token, with its bytes, does where this form may stand, given the token behind it.
pub fn turn(form: Form, terminal: Terminal, bytes: &[u8], behind: Terminal) -> Turn
    ensures { turn_of result ≡ table.turn (form_of form) terminal bytes.now behind }
{
    match form {
        Form::Just(wanted) => single(is(wanted, terminal)),
        Form::Worded(word) => {
            single(is(Terminal::Name, terminal) && is_same(spelled_as(word), bytes))
        }
        _ => find(rows_at(form), may_end(form), terminal, bytes, behind),
    }
}

/// The form ends before every token that closes.
#[inline(always)]
pub fn ends_at_closing(form: Form) -> bool
    ensures { result ≡ ends_at_closing form }
{
    match form {
        Form::AfterName
        | Form::MoreProd
        | Form::MoreSum
        | Form::MoreCmp
        | Form::MoreAnd
        | Form::MoreOr
        | Form::MaybePortion
        | Form::MaybeWhere
        | Form::MorePostfix
        | Form::MoreInfix
        | Form::MoreConstraints => true,
        _ => false,
    }
}

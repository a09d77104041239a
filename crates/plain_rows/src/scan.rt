// Gaps, words and symbols at the front of bytes.
ghost use Rattle.std.specs.Prelude.{◌≡◌, ◌∷◌, [], ◌++◌, ◌<◌, ◌≤◌, length, IfSome, true, not, ◌&&◌, nat_lt};
ghost use Rattle.std.specs.List.{prefix_len};
ghost use Rattle.utd_lexer.specs.Parts.{is_space};
ghost use Rattle.utd_lexer.specs.declared.token.TokenKind.TheVariants.{Word, Symbol};
ghost use Rattle.plain_rows.specs.Lexemes.{Begins, begins_word, continues_word, ends_before, is_equal_sign, is_lone, is_word};

use crate::comments::past_comment;

fn is_space(byte: u8) -> bool
    ensures value { result ≡ is_space byte }
    ensures small { result ≡ true → byte < 128 }
{
    byte == 9 || byte == 10 || byte == 13 || byte == 32
}

pub(crate) fn is_start(byte: u8) -> bool
    ensures { result ≡ begins_word byte }
{
    byte < 128 && (byte.is_ascii_alphabetic() || byte == b'_')
}

pub(crate) fn is_continuing(byte: u8) -> bool
    ensures { result ≡ continues_word byte }
{
    byte < 128 && (byte.is_ascii_alphanumeric() || byte == b'_')
}

// Whether a word ends before the byte.
fn is_stopping(byte: u8) -> bool
    ensures { result ≡ (nat_lt byte 128 && not (continues_word byte)) }
{
    byte < 128 && !is_continuing(byte)
}

pub(crate) fn is_same(a: u8, b: u8) -> bool
    ensures { result ≡ true → a ≡ b }
{
    a == b
}

/// What is behind one byte of white space.
fn past_one_space(text: &[u8]) -> Option<&[u8]>
    ensures begins { IfSome result (λ rest. Begins text.now [] rest.now) }
    ensures less { IfSome result (λ rest. length rest.now < length text.now) }
{
    let (first, rest) = text.split_first()?;
    if is_space(*first) { Some(rest) } else { None }
}

/// What is behind one byte of white space, or one comment.
fn past_one_gap(text: &[u8]) -> Option<&[u8]>
    ensures begins { IfSome result (λ rest. Begins text.now [] rest.now) }
    ensures less { IfSome result (λ rest. length rest.now < length text.now) }
{
    match past_one_space(text) {
        Some(rest) => Some(rest),
        None => past_comment(text),
    }
}

/// What is behind the white space and the comments at the front.
pub(crate) fn past_space(text: &[u8]) -> &[u8]
    ensures { Begins text.now [] result.now }
{
    let mut rest = text;
    'space: while let Some(behind) = past_one_gap(rest) {
        rest = behind;
    }
    rest
}

/// How many bytes at the front go on a word.
fn continuing(text: &[u8]) -> usize
    ensures value { result ≡ prefix_len continues_word text.now }
    ensures within { result ≤ length text.now }
{
    let mut n = 0;
    'word: while n < text.len() && is_continuing(text[n]) {
        n += 1;
    }
    n
}

/// Whether a word ends here.
fn ends_word(rest: &[u8]) -> bool
    ensures { result ≡ ends_before continues_word rest.now }
{
    match rest.split_first() {
        None => true,
        Some((next, _)) => is_stopping(*next),
    }
}

/// The word at the front, and what is behind it.
pub(crate) fn word(text: &[u8]) -> Option<(&[u8], &[u8])>
    ensures { IfSome result (λ r. Begins text.now ((Word, r.0.now) ∷ []) r.1.now) }
{
    let (first, _) = text.split_first()?;
    if is_start(*first) {
        let n = continuing(text);
        let (front, rest) = text.split_at(n);
        if n > 0 {
            if ends_word(rest) {
                return Some((front, rest));
            }
        }
    }
    None
}

/// What is behind this symbol.
pub(crate) fn past_symbol(text: &[u8], symbol: u8) -> Option<&[u8]>
    requires { is_lone symbol ≡ true }
    ensures { IfSome result (λ rest. Begins text.now ((Symbol, symbol ∷ []) ∷ []) rest.now) }
{
    let (first, rest) = text.split_first()?;
    if is_same(*first, symbol) {
        Some(rest)
    } else {
        None
    }
}

/// What is behind these bytes.
fn past_bytes<'a>(text: &'a [u8], front: &[u8]) -> Option<&'a [u8]>
    ensures { IfSome result (λ rest. text.now ≡ front.now ++ rest.now) }
{
    if front.len() > text.len() {
        return None;
    }
    let mut n = 0;
    'front: while n < front.len() {
        if text[n] != front[n] {
            return None;
        }
        n += 1;
    }
    Some(text.split_at(n).1)
}

/// What is behind this word.
pub(crate) fn past_word<'a>(text: &'a [u8], word: &[u8]) -> Option<&'a [u8]>
    requires { is_word word.now ≡ true }
    ensures { IfSome result (λ rest. Begins text.now ((Word, word.now) ∷ []) rest.now) }
{
    let rest = past_bytes(text, word)?;
    if ends_word(rest) { Some(rest) } else { None }
}

// Whether no `=` stands here.
fn lacks_equal_sign(rest: &[u8]) -> bool
    ensures { result ≡ ends_before is_equal_sign rest.now }
{
    match rest.split_first() {
        None => true,
        Some((next, _)) => is_no_equal_sign(*next),
    }
}

fn is_no_equal_sign(byte: u8) -> bool
    ensures { result ≡ (nat_lt byte 128 && not (is_equal_sign byte)) }
{
    byte < 128 && byte != b'='
}

/// What is behind a `:` that is no `:=`.
pub(crate) fn past_colon(text: &[u8]) -> Option<&[u8]>
    ensures { IfSome result (λ rest. Begins text.now ((Symbol, 58 ∷ []) ∷ []) rest.now) }
{
    let (first, rest) = text.split_first()?;
    if is_same(*first, b':') {
        if lacks_equal_sign(rest) {
            return Some(rest);
        }
    }
    None
}

/// What is behind a `:=`.
pub(crate) fn past_assign(text: &[u8]) -> Option<&[u8]>
    ensures { IfSome result (λ rest. Begins text.now ((Symbol, 58 ∷ 61 ∷ []) ∷ []) rest.now) }
{
    let (first, behind) = text.split_first()?;
    let (second, rest) = behind.split_first()?;
    if is_same(*first, b':') {
        if is_same(*second, b'=') {
            return Some(rest);
        }
    }
    None
}

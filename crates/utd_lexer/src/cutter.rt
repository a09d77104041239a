// The cut of a script's bytes into statements.
ghost use Rattle.std.specs.Prelude.{◌≡◌, ◌≤◌, ◌↔◌, ℕ, List, [], ◌∷◌, ◌++◌, ◌<◌, get_or, length, take, true};
ghost use Rattle.std.specs.List.{prefix_len};
ghost use Rattle.utd_lexer.specs.Parts.{IsWhole, IsBlank};
ghost use Rattle.utd_lexer.specs.Cutting.{next, is_outside, is_between, blank_next, is_plain, is_resting, stays, AllPass, Since, since_then};

use crate::ascii::unquoted_bytes;
use crate::space::is_space;

/// What a byte does to the statement that it stands in.
#[derive(Clone, Copy, Debug, PartialEq, Eq)]
pub enum Cut {
    /// The statement goes on.
    Inside,
    /// The byte is the `;` that ends the statement.
    Ends,
}

// Where the bytes so far end: between parts, behind a `/`, in a text, in a `/*` comment, there behind a
// `*`, or in a `//` comment.
#[derive(Clone, Copy, Debug, PartialEq, Eq)]
pub(crate) enum Mode {
    Between,
    Slash,
    Text,
    Block,
    Star,
    Line,
}

impl Mode {
    fn is_resting(self) -> bool
        ensures { result ≡ is_resting self }
    {
        matches!(self, Mode::Between | Mode::Line)
    }

    pub(crate) fn is_between(self) -> bool
        ensures { result ≡ is_between self }
    {
        matches!(self, Mode::Between)
    }

    // Whether the bytes can still be blank with this one.
    pub(crate) fn blank_next(self, blank: bool, byte: u8) -> bool
        ensures { result ≡ blank_next self blank byte }
    {
        match self {
            Mode::Between => blank && (is_space(byte) || byte == b'/'),
            Mode::Slash => blank && (byte == b'*' || byte == b'/'),
            _ => blank,
        }
    }

    fn is_outside(self) -> bool
        ensures { result ≡ is_outside self }
    {
        matches!(self, Mode::Between | Mode::Slash)
    }

    pub(crate) fn next(self, byte: u8) -> Mode
        ensures { result ≡ next self byte }
    {
        match self {
            Mode::Between => match byte {
                b'\'' => Mode::Text,
                b'/' => Mode::Slash,
                _ => Mode::Between,
            },
            Mode::Slash => match byte {
                b'*' => Mode::Block,
                b'/' => Mode::Line,
                b'\'' => Mode::Text,
                _ => Mode::Between,
            },
            Mode::Text => match byte {
                b'\'' => Mode::Between,
                _ => Mode::Text,
            },
            Mode::Block => match byte {
                b'*' => Mode::Star,
                _ => Mode::Block,
            },
            Mode::Star => match byte {
                b'/' => Mode::Between,
                b'*' => Mode::Star,
                _ => Mode::Block,
            },
            Mode::Line => match byte {
                b'\n' => Mode::Between,
                _ => Mode::Line,
            },
        }
    }
}

// A byte with which no text and no comment begins, and no statement ends.
fn is_plain(byte: u8) -> bool
    ensures { result ≡ is_plain byte }
{
    byte != b'\'' && byte != b'/' && byte != b';'
}

// Four by four, how many of the first bytes are plain.
fn plain_fours(bytes: &[u8]) -> usize
    ensures within { result ≤ length bytes.now }
    ensures plain { (k d : ℕ) → k < result → is_plain (get_or bytes.now k d) ≡ true }
{
    let mut n = 0;
    'fours: while bytes.len() - n >= 4
        && is_plain(bytes[n])
        && is_plain(bytes[n + 1])
        && is_plain(bytes[n + 2])
        && is_plain(bytes[n + 3])
    {
        n += 4;
    }
    n
}

fn plain_bytes(bytes: &[u8]) -> usize
    ensures { result ≡ prefix_len is_plain bytes.now }
{
    let mut n = plain_fours(bytes);
    'plain: while n < bytes.len() && is_plain(bytes[n]) {
        n += 1;
    }
    n
}

/// Cuts a script into statements, byte by byte. `Since c bytes` says that the cutter `c` was given these
/// bytes since the last end of a statement.
#[derive(Clone, Copy, Debug)]
pub struct Cutter {
    mode: Mode,
    blank: bool,
}

impl Cutter {
    /// A cutter at the start of a script.
    pub fn new() -> Cutter
        ensures { Since result [] }
    {
        Cutter {
            mode: Mode::Between,
            blank: true,
        }
    }

    /// How many of the first bytes change nothing, so that they can be passed without a step.
    pub fn passing(&self, bytes: &[u8]) -> usize
        ensures within { result ≤ length bytes.now }
        ensures pass { AllPass self.now (take result bytes.now) }
    {
        match self.mode {
            Mode::Text => unquoted_bytes(bytes),
            Mode::Between => { if self.blank { 0 } else { plain_bytes(bytes) } }
            _ => 0,
        }
    }

    // Whether the byte changes nothing: behind bytes that are not blank, most stand between parts.
    fn stays(&self, byte: u8) -> bool
        ensures { result ≡ stays self.now byte }
    {
        self.mode.is_between() && !self.blank && byte != b'\'' && byte != b'/' && byte != b';'
    }

    /// Takes the next byte. It ends a statement exactly where it is a `;` outside texts and comments.
    pub fn step(&mut self, byte: u8) -> Cut
        ensures since { (bytes : List ℕ) → Since self.old bytes →
            Since self.new (since_then result bytes byte) }
        ensures ends { (bytes : List ℕ) → Since self.old bytes →
            ((result ≡ Cut.Ends) ↔ ((byte ≡ 59) × IsWhole bytes)) }
    {
        if self.stays(byte) {
            return Cut::Inside;
        }
        let outside = self.mode.is_outside();
        let blank = self.mode.blank_next(self.blank, byte);
        self.mode = self.mode.next(byte);
        if outside && byte == b';' {
            self.blank = true;
            Cut::Ends
        } else {
            self.blank = blank;
            Cut::Inside
        }
    }

    /// Whether the bytes since the last end of a statement are only white space and comments, the last
    /// of which may be an unfinished `//` comment.
    pub fn is_blank(&self) -> bool
        ensures { (bytes : List ℕ) → Since self.now bytes → ((result ≡ true) ↔ IsBlank bytes) }
    {
        self.blank && self.mode.is_resting()
    }
}

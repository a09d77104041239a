// The statement that no `;` has ended yet.
ghost use Rattle.std.specs.Prelude.{◌≡◌, ℕ, ◌+◌, ◌-◌, ◌^◌, ◌<◌, ◌≤◌, List, [], ◌++◌, length, IfSome, MatchOption, OnOk, OnErr};
ghost use Rattle.value_core.specs.Limits.{most_statement_bytes};
ghost use Rattle.utd_lexer.specs.Tokens.{Fits, place_after};

use point_core::Place;
use std::alloc::{AllocError, Global};
use utd_lexer::place_behind;
use value_core::MOST_STATEMENT_BYTES;

/// The statement that is not ended: where it begins, the place of the next byte, its length, and its bytes, or none where
/// there are too many.
#[derive(Drop)]
pub struct Unfinished {
    start: Place,
    next: Place,
    size: usize,
    bytes: Vec<u8>,
    ghost kept: { (length bytes.items ≤ size) × (length bytes.items ≤ most_statement_bytes) },
}

// Keeps the piece behind what is kept, or nothing where all together are too many.
fn keep(kept: &mut Vec<u8>, size: usize, piece: &[u8]) -> Result<(), AllocError>
    ensures short { OnOk result (size ≤ most_statement_bytes → kept.new.items ≡ kept.old.items ++ piece.now) }
    ensures long { OnOk result (most_statement_bytes < size → kept.new.items ≡ []) }
    ensures failed { OnErr result (kept.new.items ≡ kept.old.items) }
{
    if size > MOST_STATEMENT_BYTES {
        kept.clear();
        return Ok(());
    }
    kept.extend_from_slice(piece)
}

impl Unfinished {
    ghost use Rattle.utd_session.specs.Unfinished.{IsUnfinished, kept_of};
    ghost use Rattle.utd_session.specs.Statements.{first_place};
    ghost use Rattle.utd_session.specs.Readings.{most_in_statement};

    /// Nothing, at the start of a script.
    pub fn new(alloc: Global) -> Unfinished
        ensures nothing { IsUnfinished result first_place [] }
    {
        let place = Place { line: 1, column: 1 };
        Unfinished {
            start: place,
            next: place,
            size: 0,
            bytes: Vec::new(alloc),
        }
    }

    /// Takes more bytes. For want of memory they are counted and not kept.
    pub fn extend(&mut self, piece: &[u8]) -> Result<(), AllocError>
        requires places { Fits self.old.next (length piece.now) }
        requires few { self.old.size + length piece.now ≤ 2 ^ 32 - 1 }
        ensures more { (place : Place) (bytes : List ℕ) → IsUnfinished self.old place bytes
            → OnOk result (IsUnfinished self.new place (bytes ++ piece.now)) }
        ensures size { self.new.size ≡ self.old.size + length piece.now }
        ensures start { self.new.start ≡ self.old.start }
        ensures next { self.new.next ≡ place_after self.old.next piece.now }
    {
        self.size += piece.len();
        self.next = place_behind(self.next, piece);
        keep(&mut self.bytes, self.size, piece)?;
        Ok(())
    }

    /// Begins the next one behind this one.
    pub fn restart(&mut self)
        ensures next { (place : Place) (bytes : List ℕ) → IsUnfinished self.old place bytes
            → IsUnfinished self.new (place_after place bytes) [] }
        ensures start { self.new.start ≡ self.old.next }
        ensures place { self.new.next ≡ self.old.next }
        ensures size { self.new.size ≡ 0 }
    {
        self.start = self.next;
        self.size = 0;
        self.bytes.clear();
    }

    /// The bytes that are kept.
    pub fn held(&self) -> &[u8]
        ensures { (place : Place) (bytes : List ℕ) → IsUnfinished self.now place bytes → result.now ≡ kept_of bytes }
    {
        self.bytes.as_slice()
    }

    /// Where it begins.
    pub fn start(&self) -> Place
        ensures { result ≡ self.now.start }
    {
        self.start
    }

    /// Its bytes, or `None` where they are too many.
    pub fn text(&self) -> Option<&[u8]>
        ensures is { (place : Place) (bytes : List ℕ) → IsUnfinished self.now place bytes
            → MatchOption result (most_in_statement < length bytes) (λ text. (length bytes ≤ most_in_statement) × (text.now ≡ bytes)) }
        ensures few { IfSome result (λ text. length text.now ≤ most_statement_bytes) }
    {
        if self.size > MOST_STATEMENT_BYTES {
            return None;
        }
        Some(self.bytes.as_slice())
    }
}

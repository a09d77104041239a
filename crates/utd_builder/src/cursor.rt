// The tokens that are still to come.
ghost use Rattle.std.specs.Prelude.{◌≡◌, IfOk};
ghost use Rattle.utd_syntax.specs.Pieces.{bytes_of, first, place_of};
ghost use Rattle.utd_builder.specs.Building.{Named, behind, left};

use point_core::Place;
use std::alloc::{AllocError, Global};
use utd_syntax::{Bytes, Terminal, Word};

/// A token: what it is to the grammar, where it stands, and its bytes.
#[derive(Clone, Copy)]
pub struct Lexeme<'a> {
    pub terminal: Terminal,
    pub place: Place,
    pub bytes: &'a [u8],
}

/// The tokens that are still to come.
#[derive(Clone, Copy)]
pub struct Cursor<'a> {
    pub rest: &'a [Lexeme<'a>],
}

impl<'a> Cursor<'a> {
    pub fn terminal(self) -> Terminal
        ensures { result ≡ first (left self.entry) }
    {
        match self.rest.split_first() {
            None => Terminal::Finish,
            Some((lexeme, _)) => lexeme.terminal,
        }
    }

    pub fn place(self) -> Place
        ensures { result ≡ place_of (left self.entry) }
    {
        match self.rest.split_first() {
            None => Place { line: 0, column: 0 },
            Some((lexeme, _)) => lexeme.place,
        }
    }

    pub fn bytes(self, alloc: Global) -> Result<Bytes, AllocError>
        ensures { IfOk result (λ b. b.list.items ≡ bytes_of (left self.entry)) }
    {
        match self.rest.split_first() {
            None => Ok(Bytes {
                list: Vec::new(alloc),
            }),
            Some((lexeme, _)) => Ok(Bytes {
                list: lexeme.bytes.to_vec(alloc)?,
            }),
        }
    }

    // Past one token.
    pub fn skip(self) -> Cursor<'a>
        ensures { left result ≡ behind (left self.entry) }
    {
        match self.rest.split_first() {
            None => self,
            Some((_, rest)) => Cursor { rest },
        }
    }

    // The token as a name, and what stands behind it.
    pub fn name(self, alloc: Global) -> Result<(Word, Cursor<'a>), AllocError>
        ensures { Named (left self.entry) result }
    {
        let bytes = self.bytes(alloc)?;
        let word = Word {
            place: self.place(),
            bytes,
        };
        Ok((word, self.skip()))
    }
}

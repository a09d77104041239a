// The texts of statements that are kept for the script.
ghost use Rattle.std.specs.Prelude.{◌≡◌, [], ◌∷◌, ◌++◌, List, OnOk, OnErr};
ghost use Rattle.dump_core.specs.Texts.{SourceText, kept, forgotten, same_kind};

use point_core::Memory;
use std::alloc::Global;
use std::marker::Model;

/// Where a statement stands in the script: before the rows, behind them, or behind the views.
#[derive(Clone, Copy, Debug, PartialEq, Eq)]
pub enum TextKind {
    /// The declaration of a type or of a base relvar.
    Early,
    /// The declaration of a view.
    View,
    /// The declaration of a database constraint.
    Rule,
}

/// The text of one statement, with its kind and the name that it declares.
#[derive(Drop)]
pub(crate) struct KeptText {
    kind: TextKind,
    name: Vec<u8>,
    bytes: Vec<u8>,
}

impl Model for KeptText {
    ghost use Rattle.dump_core.specs.Texts.{SourceText};

    ghost Value = { SourceText };

    ghost view = { λ t. record { kind = t.kind; name = t.name.items; bytes = t.bytes.items } };
}

impl KeptText {
    /// Whether it is of the kind.
    pub(crate) fn is_of(&self, kind: TextKind) -> bool
        ensures { result ≡ same_kind self.now.kind kind }
    {
        match self.kind {
            TextKind::Early => matches!(kind, TextKind::Early),
            TextKind::View => matches!(kind, TextKind::View),
            TextKind::Rule => matches!(kind, TextKind::Rule),
        }
    }

    /// The bytes of the text.
    pub(crate) fn bytes(&self) -> &[u8]
        ensures { result.now ≡ self.now.bytes }
    {
        self.bytes.as_slice()
    }
}

/// The texts of the statements that declared what a database has, in the order in which they were read.
#[derive(Drop)]
pub struct Texts {
    alloc: Global,
    list: Vec<KeptText>,
}

impl Model for Texts {
    ghost use Rattle.std.specs.Prelude.{List};
    ghost use Rattle.dump_core.specs.Texts.{SourceText};

    ghost Value = { List SourceText };

    ghost view = { λ s. s.list.items };
}

impl Texts {
    /// No texts.
    pub fn new(alloc: Global) -> Texts
        ensures { result ≡ [] }
    {
        Texts {
            alloc,
            list: Vec::new(alloc),
        }
    }

    /// The texts, in order.
    pub(crate) fn list(&self) -> &[KeptText]
        ensures { result.now ≡ self.now }
    {
        self.list.as_slice()
    }

    /// Keeps the text of a statement that declares this name.
    pub fn keep(&mut self, kind: TextKind, name: &[u8], text: &[u8]) -> Result<(), Memory>
        ensures ok { OnOk result (self.new ≡ kept kind name.now text.now self.old) }
        ensures err { OnErr result (self.new ≡ self.old) }
    {
        let name = Vec::from_slice(self.alloc, name)?;
        let bytes = Vec::from_slice(self.alloc, text)?;
        self.list.push(KeptText { kind, name, bytes })?;
        Ok(())
    }

    /// Lets the texts go that declare this name. It takes no memory.
    pub fn forget(&mut self, name: &[u8])
        ensures { self.new ≡ forgotten name.now self.old }
    {
        self.list
            .retain(|text: &KeptText| text.name.as_slice() != name);
    }

    /// Lets the last text go. It takes no memory.
    pub fn drop_last(&mut self)
        ensures { (before : List SourceText) (t : SourceText) → self.old ≡ before ++ t ∷ [] → self.new ≡ before }
    {
        match self.list.pop() {
            Some(text) => drop(text),
            None => (),
        }
    }
}

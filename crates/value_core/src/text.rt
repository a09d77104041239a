// Texts, the values of CHAR.
ghost use Rattle.std.specs.Prelude.{◌≡◌, ◌&&◌, not, IfOk, IsTrue, Some, length, nat_eq, nat_le, refl};
ghost use Rattle.std.specs.Ordering.{nat_cmp};
ghost use Rattle.std.specs.Cmp.{partial_equiv_from_equiv};
ghost use Rattle.std.specs.Cmp.Lexicographic.{slice_cmp, pointwise, nat_list_eq_equiv, nat_list_cmp_total, texts_ties, texts_po};
ghost use Rattle.value_core.specs.Lengths.{has_control, is_text, IsTextOf};
ghost use Rattle.value_core.specs.Limits.{most_text_bytes};

use crate::limits::MOST_TEXT_BYTES;
use point_core::Memory;
use std::alloc::Global;
use std::cmp::Ordering;
use std::marker::Model;

/// A text of at most 255 bytes, in which no character is below the space. Texts are equal and ordered by their bytes.
#[derive(Debug, Drop)]
pub struct Text {
    text: String,
}

impl Model for Text {
    ghost use Rattle.std.specs.Prelude.{List, ℕ};
    ghost use Rattle.std.specs.String.{string_bytes};
    ghost use Rattle.std.specs.Prelude.{IsTrue};
    ghost use Rattle.value_core.specs.Lengths.{is_text};

    ghost Value = { List ℕ };

    ghost view = { λ t. string_bytes t.text };

    ghost invariant = { λ t. IsTrue (is_text (string_bytes t.text)) };
}

impl Text {
    /// The text, or none where it has more than 255 bytes, or a character below the space.
    pub fn make(alloc: Global, text: &str) -> Result<Option<Text>, Memory>
        ensures { IfOk result (λ o. IsTextOf text.now o) }
    {
        if !is_text(text) {
            return Ok(None);
        }
        let text = String::from_str(alloc, text)?;
        Ok(Some(Text { text }))
    }

    /// The text itself.
    pub fn as_str(&self) -> &str
        ensures text { result.now ≡ self.now }
        ensures is { IsTrue (is_text self.now) }
    {
        self.text.as_str()
    }

    // A text is one, so it need not be looked at.
    pub(crate) fn is_one(&self) -> bool
        ensures { result ≡ is_text self.now }
    {
        let _text = self.as_str();
        true
    }

    /// An equal text.
    pub fn copy(&self, alloc: Global) -> Result<Text, Memory>
        ensures { IfOk result (λ t. t ≡ self.now) }
    {
        let text = String::from_str(alloc, self.text.as_str())?;
        Ok(Text { text })
    }
}

/// Whether a character is below the space.
pub fn has_control(bytes: &[u8]) -> bool
    ensures { result ≡ has_control bytes.now }
{
    bytes.iter().any(|b| *b < 32)
}

// Whether bytes that are UTF-8 are a text.
fn are_text(bytes: &[u8]) -> bool
    ensures { result ≡ (nat_le (length bytes.now) most_text_bytes && not (has_control bytes.now)) }
{
    bytes.len() <= MOST_TEXT_BYTES && !has_control(bytes)
}

// Whether this is a text.
fn is_text(text: &str) -> bool
    ensures { result ≡ is_text text.now }
{
    are_text(text.as_bytes())
}

impl PartialEq for Text {
    ghost eq = { pointwise nat_eq };

    ghost laws = { partial_equiv_from_equiv nat_list_eq_equiv };

    fn eq(&self, other: &Text) -> bool {
        self.as_str() == other.as_str()
    }
}

impl Eq for Text {
    ghost laws = { nat_list_eq_equiv };
}

impl PartialOrd for Text {
    ghost partial_cmp = { λ a b. Some (slice_cmp nat_cmp a b) };

    ghost laws = { texts_po };

    fn partial_cmp(&self, other: &Text) -> Option<Ordering> {
        Some(self.cmp(other))
    }
}

impl Ord for Text {
    ghost cmp = { slice_cmp nat_cmp };

    ghost total = { nat_list_cmp_total };

    ghost matches_partial_cmp = { λ _ _. refl };

    ghost matches_eq = { texts_ties };

    fn cmp(&self, other: &Text) -> Ordering {
        self.as_str().cmp(other.as_str())
    }
}

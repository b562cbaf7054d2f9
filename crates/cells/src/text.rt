//! A text that contracts see as the list of its bytes.
ghost use Rattle.std.specs.Prelude.{◌≡◌, ◌<◌, Some, IfOk, OnErr, bytes_eq, length, string_bytes, refl};
ghost use Rattle.std.specs.Cmp;
ghost use Rattle.std.specs.Cmp.Lexicographic.{nat_list_cmp_total, nat_list_eq_equiv, texts_po, texts_ties};
ghost use Rattle.cells.specs.TextOrder.{bytes_cmp};
ghost use Rattle.cells.specs.Texts.{text_bytes};

use crate::lent_text::LentText;
use crate::short::{SHORT_BYTES, ShortText};
use std::alloc::{AllocError, Global};
use std::cmp::Ordering;
use std::marker::Model;

/// A text in UTF-8, of any length. It owns its bytes. Texts are ordered by their bytes: the first
/// byte that differs decides, and a text stands after its own beginnings.
#[derive(Debug, Drop)]
pub struct Text {
    form: Form,
}

/// Where the bytes are. The texts of a table are short for the most part: a copy of such a one asks for no memory, and
/// whoever reads its row has its bytes beside it. A long one stands behind one word, so that it makes no cell wider.
#[derive(Debug, Drop)]
enum Form {
    Short(ShortText),
    Long(Box<String>),
}

impl Model for Text {
    ghost use Rattle.std.specs.Prelude.{List, ℕ};
    ghost use Rattle.cells.specs.Texts.{text_bytes};

    ghost Value = { List ℕ };

    ghost view = { λ t. text_bytes t.form };
}

impl Text {
    /// The text of a string. Up to 14 bytes take no memory, so want of memory comes of a longer one alone.
    pub fn new(alloc: Global, string: String) -> Result<Text, AllocError>
        ensures bytes { IfOk result (λ text. text ≡ string_bytes string) }
        ensures long { OnErr result (14 < length (string_bytes string)) }
    {
        if string.len() <= SHORT_BYTES {
            return Ok(Text {
                form: Form::Short(ShortText::of(string.as_str())),
            });
        }
        Ok(Text {
            form: Form::Long(Box::new(alloc, string)?),
        })
    }

    /// A copy of the characters. Up to 14 bytes take no memory, so want of memory comes of a longer one alone.
    pub fn copied(alloc: Global, characters: &str) -> Result<Text, AllocError>
        ensures bytes { IfOk result (λ text. text ≡ characters.now) }
        ensures long { OnErr result (14 < length characters.now) }
    {
        if characters.len() <= SHORT_BYTES {
            return Ok(Text {
                form: Form::Short(ShortText::of(characters)),
            });
        }
        let string = String::from_str(alloc, characters)?;
        Ok(Text {
            form: Form::Long(Box::new(alloc, string)?),
        })
    }

    /// Its characters.
    pub fn as_str(&self) -> &str
        ensures { result.now ≡ self.now }
    {
        match &self.form {
            Form::Short(short) => short.as_str(),
            Form::Long(string) => string.as_str(),
        }
    }

    /// Its bytes, which are at hand without a look at what they spell.
    pub fn as_bytes(&self) -> &[u8]
        ensures { result.now ≡ self.now }
    {
        match &self.form {
            Form::Short(short) => short.as_bytes(),
            Form::Long(string) => string.as_bytes(),
        }
    }
}

impl Text {
    /// The text, lent.
    pub fn lent(&self) -> LentText<'_>
        ensures { result.bytes.now ≡ self.now }
    {
        match &self.form {
            Form::Short(short) => LentText::of(short.as_bytes()),
            Form::Long(string) => LentText::of(string.as_str().as_bytes()),
        }
    }
}

impl Clone for Text {
    ghost is_clone = { λ s t. t ≡ s };

    fn clone(&self) -> Result<Text, AllocError> {
        let form = match &self.form {
            Form::Short(short) => Form::Short(short.clone()?),
            Form::Long(string) => Form::Long(string.clone()?),
        };
        Ok(Text { form })
    }
}

impl PartialEq for Text {
    ghost eq = { bytes_eq };

    ghost laws = { Cmp.partial_equiv_from_equiv nat_list_eq_equiv };

    fn eq(&self, other: &Text) -> bool {
        self.as_bytes() == other.as_bytes()
    }
}

impl Eq for Text {
    ghost laws = { nat_list_eq_equiv };
}

impl PartialOrd for Text {
    ghost partial_cmp = { λ x y. Some (bytes_cmp x y) };

    ghost laws = { texts_po };

    fn partial_cmp(&self, other: &Text) -> Option<Ordering> {
        Some(self.cmp(other))
    }
}

impl Ord for Text {
    ghost cmp = { bytes_cmp };

    ghost total = { nat_list_cmp_total };

    ghost matches_partial_cmp = { λ x y. refl };

    ghost matches_eq = { texts_ties };

    fn cmp(&self, other: &Text) -> Ordering {
        self.as_bytes().cmp(other.as_bytes())
    }
}

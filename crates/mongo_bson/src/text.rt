ghost use Rattle.std.specs.Prelude.{◌≡◌, ◌++◌, List, ℕ, string_bytes, IfOk, IfErr, OnOk, OnErr};
ghost use Rattle.std.specs.Cmp.Lexicographic.{pointwise};
ghost use Rattle.std.specs.Cmp.Rules.{comparing};
ghost use Rattle.std.specs.Prelude.{◌==◌};
ghost use Rattle.std.proofs.Common.{rules};

use crate::{BsonFault, Items, TryClone};
use std::alloc::Global;
use std::marker::Model;

/// A text of UTF-8 that owns its memory. Contracts see its list of bytes.
#[derive(Debug, Drop)]
pub struct Text {
    text: String,
}

impl Model for Text {
    ghost Value = { List ℕ };

    ghost view = { λ t. string_bytes t.text };
}

impl Text {
    /// A copy of the text.
    pub fn from_slice(alloc: Global, text: &str) -> Result<Text, BsonFault>
        ensures copied { IfOk result (λ t. t ≡ text.now) }
        ensures refused { IfErr result (λ fault. fault ≡ BsonFault.OutOfMemory) }
    {
        Ok(Text {
            text: String::from_str(alloc, text)?,
        })
    }

    /// The text that a string holds. Nothing is copied.
    pub fn from_string(text: String) -> Text
        ensures { result ≡ string_bytes text }
    {
        Text { text }
    }

    /// The text.
    pub fn as_str(&self) -> &str
        ensures { result.now ≡ self.now }
    {
        self.text.as_str()
    }

    /// The bytes of the text.
    pub fn as_bytes(&self) -> &[u8]
        ensures { result.now ≡ self.now }
    {
        self.text.as_bytes()
    }

    /// Adds a text at the end. A refusal leaves the text as it was.
    pub fn push_str(&mut self, text: &str) -> Result<(), BsonFault>
        ensures added { OnOk result (self.new ≡ self.old ++ text.now) }
        ensures unchanged { OnErr result (self.new ≡ self.old) }
        ensures refused { IfErr result (λ fault. fault ≡ BsonFault.OutOfMemory) }
    {
        self.text.push_str(text)?;
        Ok(())
    }

    /// The allocator of the text's memory.
    pub fn allocator(&self) -> Global {
        *self.text.allocator()
    }

    /// A copy of the text.
    pub fn try_clone(&self, alloc: Global) -> Result<Text, BsonFault>
        ensures copied { IfOk result (λ t. t ≡ self.now) }
        ensures refused { IfErr result (λ fault. fault ≡ BsonFault.OutOfMemory) }
    {
        Text::from_slice(alloc, self.as_str())
    }
}

impl PartialEq for Text {
    ghost eq = { pointwise ◌==◌ };

    ghost laws = { Prim.search (comparing, rules) };

    fn eq(&self, other: &Text) -> bool {
        self.as_bytes() == other.as_bytes()
    }
}

impl TryClone for Text {
    fn try_clone(&self, alloc: Global) -> Result<Text, BsonFault> {
        Text::try_clone(self, alloc)
    }
}

/// A list of texts. Contracts see the list of their byte lists.
pub type Texts = Items<Text>;

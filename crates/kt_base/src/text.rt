ghost use Rattle.std.specs.Prelude.{◌≡◌, ◌<◌, ◌==◌, [], ◌∷◌, ◌++◌, List, ℕ, IfOk, OnOk, OnErr, bytes_eq};
ghost use Rattle.std.specs.Cmp.{partial_equiv_from_equiv};
ghost use Rattle.std.specs.Cmp.Lexicographic.{nat_list_eq_equiv};
ghost use Rattle.std.specs.Fmt.{decimal};
ghost use Rattle.std.specs.List.{slice_split};
ghost use Rattle.std.specs.Str.{chars};
ghost use Rattle.std.specs.String.{string_bytes};
ghost use Rattle.kt_base.specs.Utf8.{utf8};

use crate::{Items, NoMemory};
use std::alloc::Global;
use std::marker::Model;

/// A growable UTF-8 string whose methods return `NoMemory` if an allocation fails.
///
/// In contracts, a `Text` is the list of its characters, and `utf8` encodes them as bytes.
#[derive(Debug)]
pub struct Text {
    string: String,
}

/// A manual impl instead of `#[derive(Drop)]`, so that the prover handles each drop as one call.
impl Drop for Text {
    fn drop(self) {
        let Text { string: _ } = self;
    }
}

impl Model for Text {
    ghost Value = { List ℕ };

    ghost view = { λ t. chars (string_bytes t.string) };
}

impl PartialEq for Text {
    ghost eq = { bytes_eq };

    ghost laws = { partial_equiv_from_equiv nat_list_eq_equiv };

    fn eq(&self, other: &Text) -> bool {
        self.as_str() == other.as_str()
    }
}

impl Text {
    ghost use Rattle.kt_base.specs.Common.{is_empty, before, after};

    /// Creates an empty text. Allocates nothing.
    pub fn new(alloc: Global) -> Text
        ensures { result ≡ [] }
    {
        Text {
            string: String::new(alloc),
        }
    }

    /// Creates a text that contains a copy of `text`.
    ///
    /// # Errors
    ///
    /// - `NoMemory`: the allocation fails.
    pub fn from_str(alloc: Global, text: &str) -> Result<Text, NoMemory>
        ensures { IfOk result (λ t. t ≡ chars text.now) }
    {
        Ok(Text {
            string: String::from_str(alloc, text)?,
        })
    }

    /// Converts `string` to a text, without a copy.
    pub fn from_string(string: String) -> Text
        ensures { result ≡ chars (string_bytes string) }
    {
        Text { string }
    }

    /// Creates a text that contains `n` in decimal, without leading zeros.
    ///
    /// # Errors
    ///
    /// - `NoMemory`: the allocation fails.
    pub fn from_number(alloc: Global, n: u64) -> Result<Text, NoMemory>
        ensures { IfOk result (λ t. t ≡ decimal n) }
    {
        Ok(Text {
            string: n.to_string(alloc)?,
        })
    }

    /// Converts the text to a string, without a copy.
    pub fn into_string(self) -> String
        ensures { string_bytes result ≡ utf8 self }
    {
        let Text { string } = self;
        string
    }

    /// Returns the text as a string slice.
    pub fn as_str(&self) -> &str
        ensures characters { chars result.now ≡ self.now }
        ensures bytes { result.now ≡ utf8 self.now }
    {
        self.string.as_str()
    }

    /// Returns the bytes of the text in UTF-8.
    pub fn as_bytes(&self) -> &[u8]
        ensures { result.now ≡ utf8 self.now }
    {
        self.as_str().as_bytes()
    }

    /// Returns `true` if the text contains no character.
    pub fn is_empty(&self) -> bool
        ensures { result ≡ is_empty self.now }
    {
        self.as_str().is_empty()
    }

    /// Returns `true` if the text is equal to `word`.
    pub fn is_equal_to(&self, word: &str) -> bool
        ensures { result ≡ bytes_eq self.now (chars word.now) }
    {
        self.as_str() == word
    }

    /// Splits the text at the first occurrence of the character `sign`, and returns copies of both
    /// parts.
    ///
    /// The parts do not contain this occurrence. Returns a copy of the whole text and `None` if the
    /// text does not contain `sign`.
    ///
    /// # Errors
    ///
    /// - `NoMemory`: an allocation fails.
    pub fn split_at_first(&self, sign: char) -> Result<(Text, Option<Text>), NoMemory>
        ensures front { IfOk result (λ parts. parts.0 ≡ before sign self.now) }
        ensures rest { IfOk result (λ parts. parts.1 ≡ after sign self.now) }
    {
        match self.as_str().split_once(sign) {
            None => Ok((self.copy()?, None)),
            Some((front, rest)) => Ok((
                Text::from_str(self.allocator(), front)?,
                Some(Text::from_str(self.allocator(), rest)?),
            )),
        }
    }

    /// Splits the text at each occurrence of the ASCII character `sign`, and returns copies of the
    /// parts.
    ///
    /// # Errors
    ///
    /// - `NoMemory`: an allocation fails.
    pub fn split(&self, sign: char) -> Result<Items<Text>, NoMemory>
        requires ascii { sign < 128 }
        ensures { IfOk result (λ parts. parts ≡ slice_split (λ c. c == sign) self.now) }
    {
        let between: Vec<&str> = self.as_str().split(sign).collect(self.allocator())?;
        let mut parts = Items::new(self.allocator());
        for part in &between {
            parts.push(Text::from_str(self.allocator(), *part)?)?;
        }
        Ok(parts)
    }

    /// Copies the text into a new allocation.
    ///
    /// # Errors
    ///
    /// - `NoMemory`: the allocation fails.
    pub fn copy(&self) -> Result<Text, NoMemory>
        ensures { IfOk result (λ t. t ≡ self.now) }
    {
        Ok(Text {
            string: self.string.clone()?,
        })
    }

    /// Appends the character `c` to the text.
    ///
    /// # Errors
    ///
    /// - `NoMemory`: the allocation fails. The text is unchanged.
    pub fn push(&mut self, c: char) -> Result<(), NoMemory>
        ensures ok { OnOk result (self.new ≡ self.old ++ c ∷ []) }
        ensures err { OnErr result (self.new ≡ self.old) }
    {
        self.string.push(c)?;
        Ok(())
    }

    /// Appends a copy of `more` to the text.
    ///
    /// # Errors
    ///
    /// - `NoMemory`: the allocation fails. The text is unchanged.
    pub fn push_str(&mut self, more: &str) -> Result<(), NoMemory>
        ensures ok { OnOk result (self.new ≡ self.old ++ chars more.now) }
        ensures err { OnErr result (self.new ≡ self.old) }
    {
        self.string.push_str(more)?;
        Ok(())
    }

    /// Returns the allocator of the text.
    pub(crate) fn allocator(&self) -> Global {
        *self.string.allocator()
    }
}

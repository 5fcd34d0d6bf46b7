use kt_base::{NoMemory, Text, Variable, Variables};
use std::alloc::Global;
use std::fmt::{Debug, Display};

/// A text that is built piece by piece, such as the output of an example.
///
/// `write!` appends to the text. After a failed allocation, later pieces are ignored, and
/// `into_string` returns the error.
#[derive(Drop)]
pub struct ExampleOutput {
    /// The allocator of the text.
    pub alloc: Global,
    text: String,
    /// The error of the first failed allocation for the text, or `None`.
    refusal: Option<NoMemory>,
}

impl ExampleOutput {
    /// Creates an output without text. Allocates nothing.
    pub fn new(alloc: Global) -> ExampleOutput {
        ExampleOutput {
            alloc,
            text: String::new(alloc),
            refusal: None,
        }
    }

    /// Appends `text` to the output. Does nothing if an earlier allocation failed.
    pub fn push(&mut self, text: &str) {
        if self.refusal.is_none() {
            self.refusal = self.text.push_str(text).err().map(NoMemory::from);
        }
    }

    /// Appends the text that `write!` formats.
    pub fn write_fmt<D: Display + Drop>(&mut self, text: D) {
        self.push_or_record(text.to_string(self.alloc));
    }

    /// Appends `separator`, unless the output is empty.
    pub fn push_separator(&mut self, separator: &str) {
        if !self.text.is_empty() {
            self.push(separator);
        }
    }

    /// Appends `text` as a new line: a newline, unless the output is empty, and then `text`.
    pub fn push_line(&mut self, text: &str) {
        self.push_separator("\n");
        self.push(text);
    }

    /// Appends the string in `text`, or records the failed allocation if `text` is an error.
    fn push_or_record<E: Drop>(&mut self, text: Result<String, E>)
    where
        NoMemory: From<E>,
    {
        match text {
            Ok(text) => self.push(text.as_str()),
            Err(refusal) => self.record_failure(NoMemory::from(refusal)),
        }
    }

    /// Appends `before`, the name of `pair`, `sign` and the value of `pair`, such as ` a=1`.
    pub fn push_pair(&mut self, before: &str, pair: &Variable, sign: &str) {
        let (name, value) = (pair.name.as_str(), pair.value.as_str());
        write!(self, "{before}{name}{sign}{value}");
    }

    /// Appends the pairs `pairs`, with `separator` between two pairs, and with `sign` between the
    /// name and the value of each pair.
    pub fn push_pairs(&mut self, pairs: &Variables, separator: &str, sign: &str) {
        let mut before = "";
        for pair in pairs.as_slice() {
            self.push_pair(before, pair, sign);
            before = separator;
        }
    }

    /// Appends the `Text` in `text`, or records the failed allocation if `text` is an error.
    pub fn push_text(&mut self, text: Result<Text, NoMemory>) {
        self.push_or_record(text.map(Text::into_string));
    }

    /// Appends `bytes` as text, with invalid UTF-8 replaced by U+FFFD.
    pub fn push_bytes(&mut self, bytes: &[u8]) {
        self.push_or_record(String::from_utf8_lossy(self.alloc, bytes));
    }

    /// Appends the name of the enum variant of `value`, without its fields.
    pub fn push_name<T: Debug>(&mut self, value: &T) {
        match format!(in self.alloc; "{value:?}") {
            Ok(text) => self.push(text.as_str().split('(').next().unwrap_or("")),
            Err(refusal) => self.record_failure(NoMemory::from(refusal)),
        }
    }

    /// Records a failed allocation, unless an earlier one is recorded.
    pub fn record_failure(&mut self, refusal: NoMemory) {
        self.refusal = self.refusal.or(Some(refusal));
    }

    /// Returns the text that was appended so far. Allocates nothing.
    ///
    /// # Errors
    ///
    /// - `NoMemory`: an earlier allocation for the text failed.
    pub fn as_str(&self) -> Result<&str, NoMemory> {
        match self.refusal {
            None => Ok(self.text.as_str()),
            Some(refusal) => Err(refusal),
        }
    }

    /// Returns the whole text that was appended, as a `String`. Allocates nothing.
    ///
    /// # Errors
    ///
    /// - `NoMemory`: an earlier allocation for the text failed.
    pub fn into_string(self) -> Result<String, NoMemory> {
        self.as_str()?;
        Ok(self.text)
    }
}

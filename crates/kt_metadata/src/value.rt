ghost use Rattle.std.specs.Prelude.{◌≡◌, ◌++◌, chars, IfOk, OnOk};
ghost use Rattle.kt_metadata.specs.Listing.{space_joined, space_prefixed, truth_text, user_text, listing_text};

use kt_base::{Items, NoMemory, Text};
use std::alloc::Global;

/// A requirement on the user that runs a case.
#[derive(Clone, Copy)]
pub enum RequiredUser {
    /// Any user.
    Any,
    /// The user root.
    Root,
    /// Any user but root.
    Unprivileged,
}

/// A value of a property, parsed by the property's [`Form`](crate::form::Form).
#[derive(Drop)]
pub enum Value {
    /// A list: the elements of the text, in their order.
    Elements(Items<Text>),
    /// Any text. The text itself is stored in [`PropertyDefinition`].
    Text,
    /// A truth value: `true` or `false`.
    Truth(bool),
    /// A size in bytes.
    Size(u64),
    /// A requirement on the user that runs the case.
    RequiredUser(RequiredUser),
    /// A timeout in seconds, 1 to 1,000,000.
    Timeout(u32),
}

/// Copies the elements `words` into newly allocated memory.
///
/// # Errors
///
/// - `NoMemory`: an allocation fails.
pub fn copy_words(alloc: Global, words: &[Text]) -> Result<Items<Text>, NoMemory>
    ensures { IfOk result (λ copy. copy ≡ words.now) }
{
    let mut copy = Items::new(alloc);
    for word in words {
        copy.push(word.copy()?)?;
    }
    Ok(copy)
}

/// Concatenates the elements `words`, with one space between two elements.
fn join(alloc: Global, words: &[Text]) -> Result<Text, NoMemory>
    ensures { IfOk result (λ text. text ≡ space_joined words.now) }
{
    match words.split_first() {
        None => Ok(Text::new(alloc)),
        Some((first, others)) => append_words(first.copy()?, others),
    }
}

/// Appends the elements `words` to the text `front`, each after a space, and returns the text.
fn append_words(front: Text, words: &[Text]) -> Result<Text, NoMemory>
    ensures { IfOk result (λ text. text ≡ front ++ space_prefixed words.now) }
{
    let mut text = front;
    for word in words {
        text.push(' ')?;
        text.push_str(word.as_str())?;
    }
    Ok(text)
}

/// Returns the text of the truth value `value` in a listing of properties: `true` or `false`.
fn truth_keyword(value: bool) -> &'static str
    ensures { chars result.now ≡ truth_text value }
{
    if value { "true" } else { "false" }
}

/// Returns the text of the required user `user` in a listing of properties.
///
/// The text is empty for `Any`.
fn user_keyword(user: RequiredUser) -> &'static str
    ensures { chars result.now ≡ user_text user }
{
    match user {
        RequiredUser::Any => "",
        RequiredUser::Root => "root",
        RequiredUser::Unprivileged => "unprivileged",
    }
}

impl Value {
    /// Copies the value into newly allocated memory.
    ///
    /// # Errors
    ///
    /// - `NoMemory`: an allocation fails.
    pub fn copy(&self, alloc: Global) -> Result<Value, NoMemory>
        ensures { IfOk result (λ value. value ≡ self.now) }
    {
        match self {
            Value::Elements(words) => Ok(Value::Elements(copy_words(alloc, words.as_slice())?)),
            Value::Text => Ok(Value::Text),
            Value::Truth(truth) => Ok(Value::Truth(*truth)),
            Value::Size(bytes) => Ok(Value::Size(*bytes)),
            Value::RequiredUser(user) => Ok(Value::RequiredUser(*user)),
            Value::Timeout(seconds) => Ok(Value::Timeout(*seconds)),
        }
    }

    /// Returns the text of the value in a listing of properties.
    ///
    /// `text` is the text from which the value was parsed. The elements of a list are joined by one
    /// space, and numbers are decimal.
    ///
    /// # Errors
    ///
    /// - `NoMemory`: an allocation fails.
    pub fn listing_text(&self, alloc: Global, text: &str) -> Result<Text, NoMemory>
        ensures { IfOk result (λ listed. listed ≡ listing_text self.now (chars text.now)) }
    {
        match self {
            Value::Elements(words) => join(alloc, words.as_slice()),
            Value::Text => Text::from_str(alloc, text),
            Value::Truth(truth) => Text::from_str(alloc, truth_keyword(*truth)),
            Value::Size(bytes) => Text::from_number(alloc, *bytes),
            Value::RequiredUser(user) => Text::from_str(alloc, user_keyword(*user)),
            Value::Timeout(seconds) => Text::from_number(alloc, u64::from(*seconds)),
        }
    }
}

/// A definition of a property: the text to which it was set, and the value parsed from that text.
#[derive(Drop)]
pub struct PropertyDefinition {
    /// The text to which the property was set, unchanged.
    pub text: Text,
    /// The value parsed from the text.
    pub value: Value,
}

impl PropertyDefinition {
    ghost use Rattle.std.specs.Prelude.{◌≡◌, IfOk};

    /// Copies the definition, its text and its value, into newly allocated memory.
    ///
    /// # Errors
    ///
    /// - `NoMemory`: an allocation fails.
    pub fn copy(&self, alloc: Global) -> Result<PropertyDefinition, NoMemory>
        ensures { IfOk result (λ given. given ≡ self.now) }
    {
        Ok(PropertyDefinition {
            text: self.text.copy()?,
            value: self.value.copy(alloc)?,
        })
    }
}

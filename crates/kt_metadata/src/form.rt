ghost use Rattle.std.specs.Prelude.{◌≡◌, Some, None, IfOk, if◌then◌else◌};
ghost use Rattle.kt_metadata.specs.Listing.{default_value};
ghost use Rattle.kt_metadata.specs.Properties.{value_in};

use crate::RequiredUser;
use crate::value::Value;
use crate::values::{
    has_invalid_file, has_invalid_program, parse_size, parse_timeout, parse_truth, parse_user,
    split_elements,
};
use kt_base::{Items, NoMemory, Text};
use std::alloc::Global;

/// A form of property values: it determines how the text of a value is parsed, and the default
/// value.
#[derive(Clone, Copy)]
pub enum Form {
    /// A list of elements, which white space separates.
    Elements,
    /// A list of files: each element is an absolute path.
    Files,
    /// A list of programs: each element is an absolute path, or a name without a slash to look up
    /// in `PATH`.
    Programs,
    /// Any text.
    Text,
    /// A truth value: `true`, `yes`, `false` or `no`.
    Truth,
    /// A size in bytes: digits, and at most one of the units K, M, G and T after them.
    Size,
    /// A required user: `root`, `unprivileged`, or an empty text for any user.
    RequiredUser,
    /// A timeout: a number of seconds from 0 to 1,000,000, where 0 represents 1,000,000.
    Timeout,
}

/// The timeout of a case without a `timeout` property, in seconds.
pub const DEFAULT_TIMEOUT_SECONDS: u32 = 300;

/// Converts the list `words` to a property value, or returns `None` if `wrong` is `true`.
///
/// `wrong` is `true` if an element of `words` is invalid for the property.
fn create_list_value(wrong: bool, words: Items<Text>) -> Option<Value>
    ensures { result ≡ (if wrong then None else Some (Value.Elements words)) }
{
    if wrong {
        None
    } else {
        Some(Value::Elements(words))
    }
}

impl Form {
    /// Parses `text` as a value of this form, or returns `None` if `text` isn't such a value.
    ///
    /// # Errors
    ///
    /// - `NoMemory`: an allocation fails.
    pub fn parse_value(self, alloc: Global, text: &Text) -> Result<Option<Value>, NoMemory>
        ensures { IfOk result (λ value. value ≡ value_in self text.now) }
    {
        match self {
            Form::Elements => Ok(Some(Value::Elements(split_elements(alloc, text)?))),
            Form::Files => {
                let words = split_elements(alloc, text)?;
                Ok(create_list_value(has_invalid_file(words.as_slice()), words))
            }
            Form::Programs => {
                let words = split_elements(alloc, text)?;
                Ok(create_list_value(has_invalid_program(words.as_slice()), words))
            }
            Form::Text => Ok(Some(Value::Text)),
            Form::Truth => Ok(parse_truth(text).map(Value::Truth)),
            Form::Size => Ok(parse_size(text.as_bytes()).map(Value::Size)),
            Form::RequiredUser => Ok(parse_user(text).map(Value::RequiredUser)),
            Form::Timeout => Ok(parse_timeout(text.as_bytes()).map(Value::Timeout)),
        }
    }

    /// Returns the default value of this form, which a property has if it is not set.
    ///
    /// Allocates nothing.
    pub fn default_value(self, alloc: Global) -> Value
        ensures { result ≡ default_value self }
    {
        match self {
            Form::Elements | Form::Files | Form::Programs => Value::Elements(Items::new(alloc)),
            Form::Text => Value::Text,
            Form::Truth => Value::Truth(false),
            Form::Size => Value::Size(0),
            Form::RequiredUser => Value::RequiredUser(RequiredUser::Any),
            Form::Timeout => Value::Timeout(DEFAULT_TIMEOUT_SECONDS),
        }
    }
}

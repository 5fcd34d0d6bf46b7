ghost use Rattle.std.specs.Prelude.{◌≡◌, chars, map, IfOk, Some};
ghost use Rattle.kt_metadata.specs.Common.{find, option_copied, option_map, row_in, has_key, has_name, is_custom, form_of_property, is_kyuafile_property, value_of_text, definition_fault, IfFault, non_empty_text, non_empty_suffix};

use crate::PropFault;
use crate::form::Form;
use crate::value::Value;
use kt_base::Text;
use std::alloc::Global;

/// A row of [`PROPERTY_TABLE`]: a property's name, its key in a list of ATF cases, and the form of
/// its values.
pub type PropertyRow = (&'static str, &'static str, Form);

/// The properties with fixed names, in the order of a listing of properties.
///
/// A row has the name of a property, its key in a list of ATF cases (this profile), and the form of
/// its values. The names are those of kyuafile(5), and `has_cleanup` of atf-test-case(4).
pub const PROPERTY_TABLE: [PropertyRow; 12] = [
    ("allowed_architectures", "require.arch", Form::Elements),
    ("allowed_platforms", "require.machine", Form::Elements),
    ("description", "descr", Form::Text),
    ("has_cleanup", "has.cleanup", Form::Truth),
    ("is_exclusive", "is.exclusive", Form::Truth),
    ("required_configs", "require.config", Form::Elements),
    ("required_disk_space", "require.diskspace", Form::Size),
    ("required_files", "require.files", Form::Files),
    ("required_memory", "require.memory", Form::Size),
    ("required_programs", "require.progs", Form::Programs),
    ("required_user", "require.user", Form::RequiredUser),
    ("timeout", "timeout", Form::Timeout),
];

/// Returns `true` if `name` is the name of a custom property (kyuafile(5)).
///
/// Such a name is `custom.` followed by at least one character.
pub fn is_custom(name: &str) -> bool
    ensures { result ≡ is_custom (chars name.now) }
{
    non_empty_suffix(name, "custom.").is_some()
}

/// Returns the first of `rows` whose property has the name `name`, or `None` if there is no such
/// row.
fn row_with_name<'a>(name: &Text, rows: &'a [PropertyRow]) -> Option<&'a PropertyRow>
    ensures { option_map row_in (option_copied result)
        ≡ find (has_name name.now) (map row_in rows.now) }
{
    for row in rows {
        if name.is_equal_to(row.0) {
            return Some(row);
        }
    }
    None
}

/// Returns the first of `rows` whose property has the key `key`, or `None` if there is no such row.
///
/// The keys are those of a list of ATF cases (this profile).
pub fn row_with_key<'a>(key: &Text, rows: &'a [PropertyRow]) -> Option<&'a PropertyRow>
    ensures { option_map row_in (option_copied result)
        ≡ find (has_key key.now) (map row_in rows.now) }
{
    for row in rows {
        if key.is_equal_to(row.1) {
            return Some(row);
        }
    }
    None
}

/// Returns the form of the values of the property `name`, or `None` if no property has this name.
fn form_of_property(name: &Text) -> Option<Form>
    ensures { result ≡ form_of_property name.now }
{
    if is_custom(name.as_str()) {
        return Some(Form::Text);
    }
    match row_with_name(name, &PROPERTY_TABLE) {
        Some(row) => Some(row.2),
        None => None,
    }
}

/// Returns `true` if a Kyuafile may set the property `name` (kyuafile(5)).
///
/// Only a list of ATF cases may set `has_cleanup` (atf-test-case(4)).
pub fn is_kyuafile_property(name: &Text) -> bool
    ensures { result ≡ is_kyuafile_property name.now }
{
    !name.is_equal_to("has_cleanup") && form_of_property(name).is_some()
}

/// Parses `text` as a value of the property `name`.
///
/// # Errors
///
/// - `UnknownProperty`: no property has this name.
/// - `BadValue`: a property has this name, but `text` isn't a value of the property.
/// - `NoMemory`: an allocation fails.
pub fn parse_property_value(alloc: Global, name: &Text, text: &Text) -> Result<Value, PropFault>
    ensures value { IfOk result (λ value. value_of_text name.now text.now ≡ Some value) }
    ensures refused { IfFault result (λ fault. definition_fault name.now text.now ≡ Some fault) }
{
    match form_of_property(name) {
        None => Err(PropFault::UnknownProperty),
        Some(form) => match form.parse_value(alloc, text)? {
            None => Err(PropFault::BadValue),
            Some(value) => Ok(value),
        },
    }
}

/// Returns `text`, or `None` if `text` is empty.
fn non_empty_text(text: &str) -> Option<&str>
    ensures { option_map (λ part. chars part.now) result ≡ non_empty_text (chars text.now) }
{
    if text.is_empty() {
        return None;
    }
    Some(text)
}

/// Returns `text` without its prefix `front`.
///
/// Returns `None` if `text` does not begin with `front` or has nothing after it.
pub fn non_empty_suffix<'a>(text: &'a str, front: &str) -> Option<&'a str>
    ensures { option_map (λ part. chars part.now) result
        ≡ non_empty_suffix (chars front.now) (chars text.now) }
{
    match text.strip_prefix(front) {
        None => None,
        Some(part) => non_empty_text(part),
    }
}

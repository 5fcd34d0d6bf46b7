ghost use Rattle.std.specs.Prelude.{◌≡◌, ◌++◌, List, ℕ, chars, codes, Some, IfOk, IfSome, IsSome};
ghost use Rattle.kt_metadata.specs.Common.{option_map, non_empty_suffix, form_of_property, name_of_key, IsKeyOf};

use crate::table::{PROPERTY_TABLE, non_empty_suffix, row_with_key};
use kt_base::{NoMemory, Text};
use std::alloc::Global;

/// Creates the name of a custom property: `custom.` followed by `part`.
fn create_custom_name(alloc: Global, part: &str) -> Result<Text, NoMemory>
    ensures { IfOk result (λ name. name ≡ codes "custom." ++ chars part.now) }
{
    let mut name = Text::from_str(alloc, "custom.")?;
    name.push_str(part)?;
    Ok(name)
}

/// Returns the property name `custom.NAME` if `key` is `X-NAME`, or `None` if `key` has another
/// form.
///
/// `key` is a key in a list of ATF cases. `NAME` has at least one character.
fn parse_custom_key(alloc: Global, key: &Text) -> Result<Option<Text>, NoMemory>
    ensures { IfOk result (λ found. found
        ≡ option_map (λ part. codes "custom." ++ part) (non_empty_suffix (codes "X-") key.now)) }
{
    match non_empty_suffix(key.as_str(), "X-") {
        None => Ok(None),
        Some(part) => {
            let name = create_custom_name(alloc, part)?;
            Ok(Some(name))
        }
    }
}

/// Returns the name of the property whose key in a list of ATF cases is `key`.
///
/// Returns `None` if no property has this key.
fn name_of_key(alloc: Global, key: &Text) -> Result<Option<Text>, NoMemory>
    ensures { IfOk result (λ found. found ≡ name_of_key key.now) }
{
    match row_with_key(key, &PROPERTY_TABLE) {
        Some(row) => Ok(Some(Text::from_str(alloc, row.0)?)),
        None => parse_custom_key(alloc, key),
    }
}

/// Returns the name of the property whose key in a list of ATF cases is `key` (this profile).
///
/// For example, `require.arch` is the key of `allowed_architectures`. The key `X-NAME` is that of
/// `custom.NAME`. Returns `None` if no property has the key.
///
/// # Errors
///
/// - `NoMemory`: an allocation fails.
pub fn property_name_of_key(alloc: Global, key: &Text) -> Result<Option<Text>, NoMemory>
    ensures stands { IfOk result (λ found. IfSome found (λ name. IsKeyOf key.now name)) }
    ensures only { (name : List ℕ) → IsKeyOf key.now name
        → IfOk result (λ found. found ≡ Some name) }

    // For a returned name, `Props::set` never fails with `UnknownProperty`.
    ensures known { IfOk result (λ found. IfSome found (λ name. IsSome (form_of_property name))) }
    ensures value { IfOk result (λ found. found ≡ name_of_key key.now) }
{
    name_of_key(alloc, key)
}

ghost use Rattle.std.specs.Prelude.{◌≡◌, ◌++◌, IfOk};
ghost use Rattle.kt_removal.specs.Common.{chars, decimal};

use kt_base::{NoMemory, Text};
use std::alloc::Global;

/// Returns the path that consists of `base`, the text `between`, and `number` in decimal digits.
///
/// # Errors
///
/// - `NoMemory`: an allocation fails.
pub fn numbered_path(
    alloc: Global,
    base: &Text,
    between: &str,
    number: u64,
) -> Result<Text, NoMemory>
    ensures { IfOk result (λ path. path ≡ base.now ++ chars between.now ++ decimal number) }
{
    let digits = Text::from_number(alloc, number)?;
    let mut path = base.copy()?;
    path.push_str(between)?;
    path.push_str(digits.as_str())?;
    Ok(path)
}

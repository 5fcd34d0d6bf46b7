ghost use Rattle.std.specs.Prelude.{◌≡◌, map};
ghost use Rattle.kt_base.specs.Common.{byte_keyword_row, value_of_keyword, keyword_row};

use crate::Text;

/// Returns the value of the first row of `table` whose keyword is the text `word`.
///
/// Returns `None` if no row has the keyword.
pub fn value_of_keyword<T: Copy>(word: &Text, table: &[(&str, T)]) -> Option<T>
    ensures { result ≡ value_of_keyword (map keyword_row table.now) word.now }
{
    for row in table {
        if word.is_equal_to(row.0) {
            return Some(row.1);
        }
    }
    None
}

/// Returns the value of the first row of `table` whose keyword has the bytes `word`.
///
/// Returns `None` if no row has the keyword.
pub fn value_of_keyword_bytes<T: Copy>(word: &[u8], table: &[(&str, T)]) -> Option<T>
    ensures { result ≡ value_of_keyword (map byte_keyword_row table.now) word.now }
{
    for row in table {
        if word == row.0.as_bytes() {
            return Some(row.1);
        }
    }
    None
}

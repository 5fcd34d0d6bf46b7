//! Shared values of the test runner, such as texts and entries, and functions that write output.
#![tactic(auto)]

mod bytes;
mod child;
mod decimal;
mod emission;
mod entry;
mod failed_start;
mod items;
mod last_values;
mod lossy_text;
mod no_memory;
mod number;
mod parts;
mod phrase;
mod scanning;
mod text;
mod variable;
mod variables;
mod verdict;
mod words;

pub use bytes::Bytes;
pub use child::{Interface, Outcome, Role};
pub use decimal::Decimal;
pub use emission::{OutputFault, emit, emit_all, write_until_failure};
pub use entry::{Entry, LATEST_MOMENT_MILLIS, Output, Run};
pub use failed_start::Refused;
pub use items::Items;
pub use last_values::theorem_of_last_values;
pub use lossy_text::lossy;
pub use no_memory::{NoMemory, OUT_OF_MEMORY};
pub use number::{emit_number, emit_u128};
pub use phrase::Phrase;
pub use scanning::{
    digits_length, has_slash, is_absolute, is_digit, line_length, parse_decimal_up_to,
};
pub use text::Text;
pub use variable::Variable;
pub use variables::Variables;
pub use verdict::{Kind, Reason, Verdict};
pub use words::{value_of_keyword, value_of_keyword_bytes};

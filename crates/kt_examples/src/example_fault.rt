use kt_base::NoMemory;

/// A result of parsing or running an example.
pub type Result<T, E = ExampleFault> = std::result::Result<T, E>;

/// Errors returned by [`push_example_output`](crate::push_example_output) and the functions that
/// parse examples.
#[derive(Clone, Copy)]
pub enum ExampleFault {
    /// An allocation failed.
    NoMemory(NoMemory),
    /// A part of the example is missing or invalid, or the example can't be executed. The field is
    /// the error's message.
    InvalidExample(&'static str),
}

impl ExampleFault {
    /// Returns the message of the error, which is printed after the number of the example's line.
    pub fn message(self) -> &'static str {
        match self {
            ExampleFault::NoMemory(_) => "out of memory",
            ExampleFault::InvalidExample(text) => text,
        }
    }
}

/// Converts the error of a failed allocation to `ExampleFault::NoMemory`, for each error type that
/// converts to `NoMemory`.
impl<E: Drop> From<E> for ExampleFault
where
    NoMemory: From<E>,
{
    fn from(refusal: E) -> ExampleFault {
        ExampleFault::NoMemory(NoMemory::from(refusal))
    }
}

/// Returns the value in `fallible`, or converts its error, a failed allocation, to an
/// `ExampleFault`. Allocates nothing.
///
/// # Errors
///
/// - `NoMemory`: `fallible` is an error.
pub fn convert_error<T: Drop, E: Drop>(fallible: Result<T, E>) -> Result<T>
where
    NoMemory: From<E>,
{
    Ok(fallible?)
}

/// Returns the value in `part`, which is a part that an example must have. Allocates nothing.
///
/// # Errors
///
/// - `InvalidExample`: `part` is `None`. The error's message is `fault`.
pub fn require_part<T>(part: Option<T>, fault: &'static str) -> Result<T> {
    part.ok_or(ExampleFault::InvalidExample(fault))
}

/// Splits `text` at its first `separator`, and returns the parts before and after it. Allocates
/// nothing.
///
/// # Errors
///
/// - `InvalidExample`: `text` doesn't contain `separator`. The error's message is `fault`.
pub fn split_once_or_fail<'a>(
    text: &'a str,
    separator: &str,
    fault: &'static str,
) -> Result<(&'a str, &'a str)> {
    text.split_once(separator)
        .ok_or(ExampleFault::InvalidExample(fault))
}

/// Appends the value in `value` to `values`, or returns the error in `value`.
///
/// # Errors
///
/// - `InvalidExample` or `NoMemory`: the error in `value`.
/// - `NoMemory`: the allocation for `values` failed.
pub fn push_or_fail<T: Drop>(values: &mut Vec<T>, value: Result<T>) -> Result<()> {
    convert_error(values.push(value?))
}

/// Returns the values of two results as a pair. Allocates nothing.
///
/// # Errors
///
/// - `InvalidExample` or `NoMemory`: the error of `first`, or else that of `second`.
pub fn zip_results<A: Drop, B: Drop>(first: Result<A>, second: Result<B>) -> Result<(A, B)> {
    Ok((first?, second?))
}

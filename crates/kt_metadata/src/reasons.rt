ghost use Rattle.std.specs.Prelude.{◌≡◌, ◌++◌, chars, IfOk, bytes_eq, not};
ghost use Rattle.kt_metadata.specs.Common.{list_any, find, option_copied, reason_text, text_in, config_reason_text, unsupported_reason_text, user_reason_text, need_reason_text, amount_reason_text, is_allowed, is_found, required_objects, is_undefined};

use crate::{Host, Meta, Need, RequiredUser};
use kt_base::{NoMemory, Phrase, Reason, Text};
use kt_config::Config;
use std::alloc::Global;

/// Returns `true` if the test suite `suite` has no variable `name` in the configuration `config`.
fn is_undefined(config: &Config, suite: &Text, name: &Text) -> bool
    ensures { result ≡ is_undefined config.now suite.now name.now }
{
    match config.suite_vars(suite) {
        None => true,
        Some(variables) => !variables.has_variable(name),
    }
}

/// Returns the first name in `words` that isn't a variable of the test suite `suite` in `config`.
///
/// Returns `None` if all names are variables of the suite.
fn first_undefined_name<'a>(words: &'a [Text], config: &Config, suite: &Text) -> Option<&'a Text>
    ensures { option_copied result ≡ find (is_undefined config.now suite.now) words.now }
{
    words.iter().find(|word| is_undefined(config, suite, *word))
}

/// Returns the first object of the kind `need` that a case requires and that wasn't found on
/// `host`.
///
/// `meta` are the properties of the case. Returns `None` if all such objects were found.
fn first_missing_object<'a>(need: Need, meta: &'a Meta, host: &Host) -> Option<&'a Text>
    ensures { option_copied result
        ≡ find (λ word. not (is_found need host.now word)) (required_objects need meta.now) }
{
    let words = meta.required_objects(need);
    words.iter().find(|word| !host.has_object(need, *word))
}

/// Returns `true` if the list `words` contains the element `word`.
fn contains_element(words: &[Text], word: &str) -> bool
    ensures { result ≡ list_any (λ w. bytes_eq w (chars word.now)) words.now }
{
    words.iter().any(|listed| listed.is_equal_to(word))
}

/// Returns `true` if the list `words` of allowed values is empty or contains `word`.
fn is_allowed(words: &[Text], word: &str) -> bool
    ensures { result ≡ is_allowed words.now (chars word.now) }
{
    words.is_empty() || contains_element(words, word)
}

/// Creates a reason whose text is the concatenation of `front`, `word` and `back`.
fn create_reason(alloc: Global, front: &str, word: &str, back: &str) -> Result<Reason, NoMemory>
    ensures { IfOk result (λ reason. reason_text reason
        ≡ chars front.now ++ (chars word.now ++ chars back.now)) }
{
    let mut text = Text::from_str(alloc, front)?;
    text.push_str(word)?;
    text.push_str(back)?;
    Ok(Reason::Owned(text))
}

/// Returns the reason to skip a case if `config` doesn't set a variable that the case requires.
///
/// `meta` are the properties of the case, and `suite` is its test suite. Returns `None` if all
/// required variables of the suite are set.
///
/// # Errors
///
/// - `NoMemory`: an allocation fails.
pub fn config_reason(
    alloc: Global,
    meta: &Meta,
    config: &Config,
    suite: &Text,
) -> Result<Option<Reason>, NoMemory>
    ensures { IfOk result (λ reason. text_in reason
        ≡ config_reason_text meta.now config.now suite.now) }
{
    match first_undefined_name(meta.required_configs.as_slice(), config, suite) {
        None => Ok(None),
        Some(word) => {
            let reason = create_reason(
                alloc,
                "Required configuration property '",
                word.as_str(),
                "' not defined",
            )?;
            Ok(Some(reason))
        }
    }
}

/// Returns the reason to skip a case if `word` isn't among the allowed values `listed`.
///
/// `word` is the configured architecture or platform. An empty list allows each value. The reason
/// begins with the text `front`. Returns `None` if `word` is allowed.
///
/// # Errors
///
/// - `NoMemory`: an allocation fails.
pub fn unsupported_reason(
    alloc: Global,
    front: &str,
    listed: &[Text],
    word: &str,
) -> Result<Option<Reason>, NoMemory>
    ensures { IfOk result (λ reason. text_in reason
        ≡ unsupported_reason_text (chars front.now) listed.now (chars word.now)) }
{
    if is_allowed(listed, word) {
        return Ok(None);
    }
    let reason = create_reason(alloc, front, word, "' not supported")?;
    Ok(Some(reason))
}

/// Returns the reason to skip a case if the test runner doesn't run as the required user `user`.
///
/// `root` is `true` if the test runner runs as root. Returns `None` if it runs as the required
/// user.
pub fn user_reason(user: RequiredUser, root: bool) -> Option<Reason>
    ensures { text_in result ≡ user_reason_text user root }
{
    match (user, root) {
        (RequiredUser::Root, false) => Some(Reason::Fixed(Phrase::RootNeeded)),
        (RequiredUser::Unprivileged, true) => Some(Reason::Fixed(Phrase::UnprivilegedNeeded)),
        _ => None,
    }
}

/// Returns the reason to skip a case if a file or program that it requires wasn't found on `host`.
///
/// `meta` are the properties of the case. `need` selects the files or the programs. Returns `None`
/// if all of them were found.
///
/// # Errors
///
/// - `NoMemory`: an allocation fails.
pub fn need_reason(
    alloc: Global,
    need: Need,
    meta: &Meta,
    host: &Host,
) -> Result<Option<Reason>, NoMemory>
    ensures { IfOk result (λ reason. text_in reason ≡ need_reason_text need meta.now host.now) }
{
    match first_missing_object(need, meta, host) {
        None => Ok(None),
        Some(word) => {
            let reason = create_reason(alloc, need.text(), word.as_str(), "' not found")?;
            Ok(Some(reason))
        }
    }
}

/// Returns the reason to skip a case if the host has less memory or disk space than required.
///
/// `due` is the required amount in bytes. `there` is the amount that the host has, in bytes, or
/// `None` if it is unknown. `phrase` is the message of the reason. Returns `None` if `there` is
/// enough or unknown.
pub fn amount_reason(phrase: Phrase, due: u64, there: Option<u64>) -> Option<Reason>
    ensures { text_in result ≡ amount_reason_text phrase due there }
{
    match there {
        None => None,
        Some(there) => if there < due {
            Some(Reason::Counted(phrase, due, there))
        } else {
            None
        },
    }
}

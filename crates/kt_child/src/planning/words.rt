ghost use Rattle.std.specs.Prelude.{◌≡◌, [], ◌∷◌, ◌++◌, map, codes, IfOk, OnOk};
ghost use Rattle.kt_child.specs.Common.{variable_argument, args_of, chars, program_directory, program_path};

use crate::{Paths, Want};
use kt_base::{Interface, Items, NoMemory, Text, Variable, Variables};
use kt_suite::parent_path;
use std::alloc::Global;

/// Returns the absolute path of `program`, a path relative to `source`. `source` is the absolute
/// path of the root Kyuafile's directory.
pub(crate) fn absolute_path(alloc: Global, source: &Text, program: &Text) -> Result<Text, NoMemory>
    ensures { IfOk result (λ path. path ≡ program_path source.now program.now) }
{
    let mut path = concat_texts(alloc, source.as_str(), "/")?;
    path.push_str(program.as_str())?;
    Ok(path)
}

/// Returns the parent directory of the absolute path `path`. The parent directory of a path such as
/// `/a` is `/`.
pub(crate) fn program_directory(alloc: Global, path: &Text) -> Result<Text, NoMemory>
    ensures { IfOk result (λ directory. directory ≡ program_directory path.now) }
{
    let parent = parent_path(alloc, path)?;
    if parent.is_empty() {
        return Text::from_str(alloc, "/");
    }
    Ok(parent)
}

/// Returns the concatenation of `first` and `second`.
pub(crate) fn concat_texts(alloc: Global, first: &str, second: &str) -> Result<Text, NoMemory>
    ensures { IfOk result (λ text. text ≡ chars first.now ++ chars second.now) }
{
    let mut text = Text::from_str(alloc, first)?;
    text.push_str(second)?;
    Ok(text)
}

/// Appends a copy of `text` to `texts`.
pub(crate) fn push_text(alloc: Global, texts: &mut Items<Text>, text: &str) -> Result<(), NoMemory>
    ensures { OnOk result (texts.new ≡ texts.old ++ chars text.now ∷ []) }
{
    let text = Text::from_str(alloc, text)?;
    texts.push(text)
}

/// Appends one text to `texts`: the concatenation of `head` and `tail`.
fn push_concat(
    alloc: Global,
    texts: &mut Items<Text>,
    head: &str,
    tail: &str,
) -> Result<(), NoMemory>
    ensures { OnOk result (texts.new ≡ texts.old ++ (chars head.now ++ chars tail.now) ∷ []) }
{
    let text = concat_texts(alloc, head, tail)?;
    texts.push(text)
}

/// Returns the argument `-vNAME=VALUE`, which passes `variable` to an ATF program.
fn atf_variable_arg(alloc: Global, variable: &Variable) -> Result<Text, NoMemory>
    ensures { IfOk result (λ word. word ≡ variable_argument variable.now) }
{
    let mut word = concat_texts(alloc, "-v", variable.name.as_str())?;
    word.push_str("=")?;
    word.push_str(variable.value.as_str())?;
    Ok(word)
}

/// Appends the argument `-vNAME=VALUE` to `words` for each of `variables`.
fn push_variable_args(
    alloc: Global,
    words: &mut Items<Text>,
    variables: &Variables,
) -> Result<(), NoMemory>
    ensures { OnOk result (words.new ≡ words.old ++ map variable_argument variables.now) }
{
    for variable in variables.as_slice() {
        let word = atf_variable_arg(alloc, variable)?;
        words.push(word)?;
    }
    Ok(())
}

/// Returns the arguments with which an ATF program lists its test cases. `variables` are the
/// variables of its suite.
fn list_args(alloc: Global, variables: &Variables) -> Result<Items<Text>, NoMemory>
    ensures { IfOk result (λ words. words ≡ map variable_argument variables.now ++ codes "-l" ∷ []) }
{
    let mut words = Items::new(alloc);
    push_variable_args(alloc, &mut words, variables)?;
    push_text(alloc, &mut words, "-l")?;
    Ok(words)
}

/// Returns the arguments with which an ATF program runs the body of the case `case_name`.
///
/// `result_file` is the path of the result file, and `source` the absolute path of the program's
/// directory. `variables` are the variables of the program's suite.
fn body_args(
    alloc: Global,
    result_file: &Text,
    source: &Text,
    variables: &Variables,
    case_name: &Text,
) -> Result<Items<Text>, NoMemory>
    ensures { IfOk result (λ words. words ≡ args_of Interface.Atf Want.Body result_file.now
        source.now variables.now case_name.now) }
{
    let mut words = Items::new(alloc);
    push_concat(alloc, &mut words, "-r", result_file.as_str())?;
    push_concat(alloc, &mut words, "-s", source.as_str())?;
    push_variable_args(alloc, &mut words, variables)?;
    push_text(alloc, &mut words, case_name.as_str())?;
    Ok(words)
}

/// Returns the arguments with which an ATF program runs the cleanup of the case `case_name`.
///
/// `source` is the absolute path of the program's directory, and `variables` are the variables of
/// its suite.
fn cleanup_args(
    alloc: Global,
    source: &Text,
    variables: &Variables,
    case_name: &Text,
) -> Result<Items<Text>, NoMemory>
    ensures { IfOk result (λ words. words ≡ ((codes "-s" ++ source.now) ∷ [])
        ++ map variable_argument variables.now ++ (case_name.now ++ codes ":cleanup") ∷ []) }
{
    let mut words = Items::new(alloc);
    push_concat(alloc, &mut words, "-s", source.as_str())?;
    push_variable_args(alloc, &mut words, variables)?;
    push_concat(alloc, &mut words, case_name.as_str(), ":cleanup")?;
    Ok(words)
}

/// Returns the arguments with which a test program is started for the purpose `want`.
///
/// An ATF program gets the arguments of atf-test-program(1). TAP and plain programs get none.
/// `paths` are the paths of the attempt, and `source` is the absolute path of the program's
/// directory. `variables` are the variables of the program's suite. `case_name` is not used for a
/// list.
///
/// # Errors
///
/// - `NoMemory`: an allocation fails.
pub fn argv_plan(
    alloc: Global,
    interface: Interface,
    want: Want,
    paths: &Paths,
    source: &Text,
    variables: &Variables,
    case_name: &Text,
) -> Result<Items<Text>, NoMemory>
    ensures { IfOk result (λ words. words ≡ args_of interface want paths.now.result source.now
        variables.now case_name.now) }
{
    match interface {
        Interface::Tap | Interface::Plain => Ok(Items::new(alloc)),
        Interface::Atf => match want {
            Want::List => list_args(alloc, variables),
            Want::Body => body_args(alloc, &paths.result, source, variables, case_name),
            Want::Cleanup => cleanup_args(alloc, source, variables, case_name),
        },
    }
}

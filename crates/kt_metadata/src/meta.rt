use crate::form::DEFAULT_TIMEOUT_SECONDS;
use crate::value::{Value, copy_words};
use crate::{Need, Props, RequiredUser};
use kt_base::{Items, NoMemory, Text};

/// The effective properties of a test case (kyuafile(5)): unset properties have their defaults.
pub struct Meta {
    /// The allowed architectures. If the list is empty, each architecture is allowed.
    pub allowed_architectures: Items<Text>,
    /// The allowed platforms. If the list is empty, each platform is allowed.
    pub allowed_platforms: Items<Text>,
    /// The description of the case, a text for people.
    pub description: Text,
    /// `true` if the case has a cleanup routine (atf-test-case(4)).
    pub has_cleanup: bool,
    /// `true` if no other case may run at the same time.
    pub is_exclusive: bool,
    /// The names of the variables that the configuration must define for the test suite.
    pub required_configs: Items<Text>,
    /// The required free disk space in bytes.
    pub required_disk_space: u64,
    /// The absolute paths of the required files.
    pub required_files: Items<Text>,
    /// The required physical memory in bytes.
    pub required_memory: u64,
    /// The required programs: absolute paths, or names that are looked up in `PATH`.
    pub required_programs: Items<Text>,
    /// The user that must run the case.
    pub required_user: RequiredUser,
    /// The timeout in seconds, 1 to 1,000,000.
    pub timeout: u32,
}

/// A manual impl instead of `#[derive(Drop)]`, so that the prover handles each drop as one call.
impl Drop for Meta {
    fn drop(self) {
        let Meta {
            allowed_architectures: _,
            allowed_platforms: _,
            description: _,
            has_cleanup: _,
            is_exclusive: _,
            required_configs: _,
            required_disk_space: _,
            required_files: _,
            required_memory: _,
            required_programs: _,
            required_user: _,
            timeout: _,
        } = self;
    }
}

impl Meta {
    ghost use Rattle.std.specs.Prelude.{◌≡◌};
    ghost use Rattle.kt_metadata.specs.Common.{required_objects};

    /// Returns the required files of the case if `need` is `File`, or its required programs if
    /// `need` is `Program`.
    pub fn required_objects(&self, need: Need) -> &[Text]
        ensures { result.now ≡ required_objects need self.now }
    {
        match need {
            Need::File => self.required_files.as_slice(),
            Need::Program => self.required_programs.as_slice(),
        }
    }
}

impl Props {
    ghost use Rattle.std.specs.Prelude.{◌≡◌, ◌≤◌, [], List, IfOk, chars, unwrap_or};
    ghost use Rattle.kt_metadata.specs.Common.{Variable, last_values, longest_timeout_seconds, texts_of, parsed_value, elements_in, truth_in, size_or_default, user_in, timeout_or_default, effective, required_objects};

    /// Returns the value of the list property `name`, or an empty list if the property isn't set.
    fn list_value(&self, name: &str) -> &[Text]
        ensures { result.now ≡ elements_in (parsed_value (texts_of self.now) (chars name.now)) }
    {
        match self.parsed_value(name) {
            Some(Value::Elements(words)) => words.as_slice(),
            _ => &[],
        }
    }

    /// Copies the value of the list property `name`, or creates an empty list if the property isn't
    /// set.
    fn copy_list(&self, name: &str) -> Result<Items<Text>, NoMemory>
        ensures { IfOk result (λ found. found
            ≡ elements_in (parsed_value (texts_of self.now) (chars name.now))) }
    {
        copy_words(self.allocator(), self.list_value(name))
    }

    /// Copies the text of the property `name`, or creates an empty text if the property isn't set.
    fn copy_text(&self, name: &str) -> Result<Text, NoMemory>
        ensures { IfOk result (λ text. text ≡ unwrap_or (texts_of self.now (chars name.now)) []) }
    {
        match self.find_definition(name) {
            Some(given) => given.text.copy(),
            None => Ok(Text::new(self.allocator())),
        }
    }

    /// Returns the value of the Boolean property `name`, or `false` if the property isn't set.
    fn truth_value(&self, name: &str) -> bool
        ensures { result ≡ truth_in (parsed_value (texts_of self.now) (chars name.now)) }
    {
        match self.parsed_value(name) {
            Some(Value::Truth(truth)) => *truth,
            _ => false,
        }
    }

    /// Returns the size in bytes that is the value of the property `name`, or 0 if the property
    /// isn't set.
    fn size_value(&self, name: &str) -> u64
        ensures { result ≡ size_or_default (parsed_value (texts_of self.now) (chars name.now)) }
    {
        match self.parsed_value(name) {
            Some(Value::Size(bytes)) => *bytes,
            _ => 0,
        }
    }

    /// Returns the user that the property `name` requires, or `Any` if the property isn't set.
    fn user_value(&self, name: &str) -> RequiredUser
        ensures { result ≡ user_in (parsed_value (texts_of self.now) (chars name.now)) }
    {
        match self.parsed_value(name) {
            Some(Value::RequiredUser(user)) => *user,
            _ => RequiredUser::Any,
        }
    }

    /// Returns the timeout in seconds that is the value of the property `name`, or 300 if the
    /// property isn't set.
    fn timeout(&self, name: &str) -> u32
        ensures { result ≡ timeout_or_default (parsed_value (texts_of self.now) (chars name.now)) }
    {
        match self.parsed_value(name) {
            Some(Value::Timeout(seconds)) => *seconds,
            _ => DEFAULT_TIMEOUT_SECONDS,
        }
    }

    /// Returns the required files of the case if `need` is `File`, or its required programs if
    /// `need` is `Program`.
    ///
    /// Allocates nothing.
    pub fn required_objects(&self, need: Need) -> &[Text]
        ensures { result.now ≡ required_objects need (effective self.now) }
    {
        match need {
            Need::File => self.list_value("required_files"),
            Need::Program => self.list_value("required_programs"),
        }
    }

    /// Returns the effective properties of the case: each has the value that was last set, or its
    /// default.
    ///
    /// The timeout 0 represents the longest timeout, 1,000,000 seconds (kyuafile(5)).
    ///
    /// # Errors
    ///
    /// - `NoMemory`: an allocation fails.
    pub fn effective(&self) -> Result<Meta, NoMemory>
        ensures value { IfOk result (λ meta. meta ≡ effective self.now) }
        ensures defined { (definitions : List Variable) → self.now ≡ last_values definitions
            → IfOk result (λ meta. meta ≡ effective definitions) }
        ensures timeout { IfOk result (λ meta. (1 ≤ meta.timeout)
            × (meta.timeout ≤ longest_timeout_seconds)) }
    {
        Ok(Meta {
            allowed_architectures: self.copy_list("allowed_architectures")?,
            allowed_platforms: self.copy_list("allowed_platforms")?,
            description: self.copy_text("description")?,
            has_cleanup: self.truth_value("has_cleanup"),
            is_exclusive: self.truth_value("is_exclusive"),
            required_configs: self.copy_list("required_configs")?,
            required_disk_space: self.size_value("required_disk_space"),
            required_files: self.copy_list("required_files")?,
            required_memory: self.size_value("required_memory"),
            required_programs: self.copy_list("required_programs")?,
            required_user: self.user_value("required_user"),
            timeout: self.timeout("timeout"),
        })
    }
}

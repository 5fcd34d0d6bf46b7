ghost use Rattle.std.specs.Prelude.{◌≡◌, chars};
ghost use Rattle.kt_metadata.specs.Requirements.{all_needs, need_text};

use kt_base::{NoMemory, Text};
use std::alloc::Global;
use std::collections::BTreeSet;

/// A kind of object that a test case requires on the host: a file or a program.
#[derive(Clone, Copy)]
pub enum Need {
    /// A required file, by its absolute path.
    File,
    /// A required program, by its absolute path or its name in a directory of `PATH`.
    Program,
}

/// The kinds of required objects, in the order in which the host is searched for them.
const NEEDS: [Need; 2] = [Need::File, Need::Program];

impl Need {
    /// Returns all kinds of required objects, in the order in which the host is searched for them.
    pub fn all() -> &'static [Need]
        ensures { result.now ≡ all_needs }
    {
        &NEEDS
    }

    /// Returns the beginning of the message that an object of this kind is missing.
    ///
    /// The message is the reason to skip a case. It begins with `Required file '` or `Required
    /// program '`.
    pub(crate) fn text(self) -> &'static str
        ensures { chars result.now ≡ need_text self }
    {
        match self {
            Need::File => "Required file '",
            Need::Program => "Required program '",
        }
    }
}

/// A description of the host, against which the requirements of test cases are checked.
#[derive(Drop)]
pub struct Host {
    /// `true` if the test runner runs as root.
    pub root: bool,
    /// The required files that were found, as absolute paths.
    files: BTreeSet<String>,
    /// The required programs that were found, as absolute paths or as names in a directory of
    /// `PATH`.
    programs: BTreeSet<String>,
    /// The physical memory in bytes, or `None` if it is unknown. An unknown amount meets each
    /// requirement.
    pub memory: Option<u64>,
    /// The free disk space in bytes, or `None` if it is unknown. An unknown amount meets each
    /// requirement.
    pub disk: Option<u64>,
}

impl Host {
    ghost use Rattle.std.specs.Prelude.{◌≡◌, List, ℕ, OnOk, false};
    ghost use Rattle.kt_metadata.specs.Common.{is_found, RecordsAsFound, Need};

    /// Creates the description of a host on which no required file or program was found yet.
    ///
    /// `root` is `true` if the test runner runs as root. `memory` and `disk` are the physical
    /// memory and the free disk space in bytes, or `None` if they are unknown. Allocates nothing.
    pub fn new(alloc: Global, root: bool, memory: Option<u64>, disk: Option<u64>) -> Host
        ensures root { result.root ≡ root }
        ensures memory { result.memory ≡ memory }
        ensures disk { result.disk ≡ disk }
        ensures nothing { (need : Need) (word : List ℕ) → is_found need result word ≡ false }
    {
        Host {
            root,
            files: BTreeSet::new(alloc),
            programs: BTreeSet::new(alloc),
            memory,
            disk,
        }
    }

    /// Records that the file or program `word`, an object of the kind `need`, was found.
    ///
    /// # Errors
    ///
    /// - `NoMemory`: an allocation fails.
    pub fn record_found(&mut self, need: Need, word: &Text) -> Result<(), NoMemory>
        ensures { OnOk result (RecordsAsFound need word.now self.old self.new) }
    {
        let name = word.copy()?.into_string();
        match need {
            Need::File => {
                self.files.insert(name)?;
                Ok(())
            }
            Need::Program => {
                self.programs.insert(name)?;
                Ok(())
            }
        }
    }

    /// Returns `true` if the file or program `word`, an object of the kind `need`, was found.
    pub(crate) fn has_object(&self, need: Need, word: &Text) -> bool
        ensures { result ≡ is_found need self.now word.now }
    {
        match need {
            Need::File => self.files.contains(word.as_str()),
            Need::Program => self.programs.contains(word.as_str()),
        }
    }
}

use kt_base::NoMemory;
use kt_child::ChildState;
use std::alloc::Global;

/// A script of a child: the number of polls that find it running, and the result of later polls.
#[derive(Clone, Copy)]
pub struct ChildScript {
    /// The number of polls that find the child running.
    pub running_polls: u32,
    /// The result of the polls after `running_polls` polls: an exit status or a signal.
    pub exit: ChildState,
}

/// A fault in reading a file in parts, which the scripted system has and a real system never has.
#[derive(Clone, Copy)]
pub enum PartFault {
    /// The parts of a file are read without a fault.
    None,
    /// Each part of a file after the first is empty, although more bytes follow.
    EmptyPart,
    /// After the first part of a file was read, the file is missing.
    MissingFile,
}

/// A file of a scripted system (`Os`) or of scripted host files (`HostFiles`).
#[derive(Drop)]
pub struct SceneFile {
    /// The path of the scripted file, in which the first `*` represents any text without `/`.
    pub path: String,
    /// The contents of the scripted file.
    pub bytes: Vec<u8>,
}

/// A script for a system (`Os`) and for host files (`HostFiles`): the files, children, timestamps
/// and failing calls.
#[derive(Drop)]
pub struct Scene {
    /// The allocator of the scene and of the test doubles that follow it.
    pub alloc: Global,
    /// The scripts of the children, in the order of their starts. Later children have the last
    /// script, too. Without scripts, each child exits with 0 at once.
    pub child_scripts: Vec<ChildScript>,
    /// The files that the scripted system and the scripted host files have.
    pub files: Vec<SceneFile>,
    /// The contents of each file that is not in `files`, or `None` if such files are missing.
    pub default_bytes: Option<Vec<u8>>,
    /// The range of calls of the system that fail: the number of the first, counted from 0, and the
    /// number of the last plus 1.
    pub failing_calls: (u32, u32),
    /// The failed allocation that the calls in `failing_calls` return as their error, or `None` if
    /// they return another error.
    pub no_memory: Option<NoMemory>,
    /// The fault that reading a file in parts has.
    pub part_fault: PartFault,
    /// The first timestamps that the system returns, in order, in milliseconds since 1970 in UTC.
    pub moments: Vec<u64>,
    /// The difference between two timestamps of the system after those in `moments`, in
    /// milliseconds.
    pub step: u64,
    /// The timestamps of the host's clock, in milliseconds since 1970 in UTC. The last is repeated.
    pub clock: Vec<u64>,
    /// Paths, each after a keyword that states a fact about the path. The first `*` in a path
    /// represents any text without `/`. `program`: the test program exists. `locked`: the file
    /// can't be read. `dear`: an allocation fails when the file is read. `found-file`,
    /// `found-program`: the required file or program exists.
    pub paths: Vec<(String, String)>,
}

impl Scene {
    /// Creates a scene without files, whose children exit with 0 and whose timestamps are 1, 2 and
    /// so on.
    pub fn new(alloc: Global) -> Scene {
        Scene {
            alloc,
            child_scripts: Vec::new(alloc),
            files: Vec::new(alloc),
            default_bytes: None,
            failing_calls: (0, 0),
            no_memory: None,
            part_fault: PartFault::None,
            moments: Vec::new(alloc),
            step: 1,
            clock: Vec::new(alloc),
            paths: Vec::new(alloc),
        }
    }

    /// Returns the contents of the file at `path`, or `None` if the file is missing.
    pub fn find_bytes(&self, path: &str) -> Option<&[u8]> {
        for file in self.files.as_slice() {
            if matches_path(file.path.as_str(), path) {
                return Some(file.bytes.as_slice());
            }
        }
        self.default_bytes.as_deref()
    }

    /// Returns `true` if `path` matches a path in `paths` that has the keyword `keyword`.
    pub fn has_path(&self, keyword: &str, path: &str) -> bool {
        let mut paths = self.paths.as_slice().iter();
        paths.any(|(known, pattern)| known.as_str() == keyword
            && matches_path(pattern.as_str(), path))
    }
}

/// Returns `true` if `path` is `pattern`, in which the first `*` represents any text without `/`.
fn matches_path(pattern: &str, path: &str) -> bool {
    let Some((front, back)) = pattern.split_once('*') else {
        return pattern == path;
    };
    let rest = path.strip_prefix(front);
    let name = rest.and_then(|rest| rest.strip_suffix(back));
    name.is_some_and(|name| !name.contains('/'))
}

/// Requests 2^64 - 1 bytes, which no computer has, to provoke the error of a failed allocation.
///
/// # Errors
///
/// - `NoMemory`: the allocation failed.
pub fn fail_allocation(alloc: Global) -> Result<(), NoMemory> {
    let _bytes: Vec<u8> = Vec::with_capacity(alloc, usize::MAX)?;
    Ok(())
}

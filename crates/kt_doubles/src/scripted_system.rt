ghost use Rattle.kt_os.specs.System.Reads.{IsReadWithin};

use crate::Scene;
use crate::scene::{ChildScript, PartFault};
use kt_base::{Bytes, Items, NoMemory, Role, Text};
use kt_child::{Child, ChildState, EnvPlan, FileRead, Os, OsFault};
use kt_examples::ExampleOutput;

/// An `Os` that follows a scene and logs each call in a line. The line of a failed call ends in
/// `failed`. If the allocation for a line fails, the call is still executed, and reading the log
/// returns the error.
#[derive(Drop)]
pub struct ScriptedSystem<'a> {
    /// The script that the system follows.
    scene: &'a Scene,
    /// The number of calls so far, without those of `set_limit`, which can't fail.
    calls: u32,
    /// The children in the order of their starts, each with the number of polls that found it
    /// running.
    children: Vec<(Child, u32)>,
    /// The number of timestamps of the scene that `now` has returned so far.
    moment_count: usize,
    /// The timestamp of the last call of `now`, in milliseconds since 1970 in UTC.
    moment: u64,
    /// The calls of the system so far, one per line.
    pub log: ExampleOutput,
    /// A line for each started program: path, arguments, directory, variables, and removed
    /// variables.
    pub spawn_log: ExampleOutput,
}

/// Returns the script of the child with index `number` in the order of starts. `child_scripts` are
/// the scripts of the first children, and later children have the last script. Without scripts, a
/// child exits with 0 at once.
fn find_child_script(child_scripts: &[ChildScript], number: usize) -> ChildScript {
    let exit = ChildState::Exited(0);
    let script = child_scripts.get(number).or(child_scripts.last());
    script.copied().unwrap_or(ChildScript {
        running_polls: 0,
        exit,
    })
}

/// Returns the result of a poll of `child`, and counts the poll in `children` if the child is
/// running. `child_scripts` are the scripts of the children. A child that wasn't started has exited
/// with 99.
fn poll_child(
    child_scripts: &[ChildScript],
    children: &mut [(Child, u32)],
    child: Child,
) -> ChildState {
    for (number, (known, polls)) in children.iter_mut().enumerate() {
        if *known == child {
            let script = find_child_script(child_scripts, number);
            if *polls >= script.running_polls {
                return script.exit;
            }
            *polls = polls.saturating_add(1);
            return ChildState::Running;
        }
    }
    ChildState::Exited(99)
}

/// Returns at most `limit` bytes of the file at `path` in `scene`, from the byte at index `from`
/// on. A read with `from` above 0 has the scene's fault of partial reads.
fn read_scene_file(scene: &Scene, path: &Text, from: u64, limit: u64) -> Result<FileRead, OsFault>
    ensures { IsReadWithin limit result }
{
    match scene.part_fault {
        PartFault::EmptyPart if from > 0 => return Ok(FileRead::Part(
            Bytes::new(scene.alloc),
            true,
        )),
        PartFault::MissingFile if from > 0 => return Ok(FileRead::Missing),
        _ => {}
    }
    let Some(bytes) = scene.find_bytes(path.as_str()) else {
        return Ok(FileRead::Missing);
    };
    let rest = bytes.get(from as usize..).unwrap_or(&[]);
    let count = rest.len().min(limit as usize);
    match Bytes::from_slice(scene.alloc, &rest[..count]) {
        Ok(part) => Ok(FileRead::Part(part, count < rest.len())),
        Err(refusal) => Err(OsFault::Memory(refusal)),
    }
}

/// Appends `texts` to `line`, each after a space.
fn push_texts(line: &mut ExampleOutput, texts: &[Text]) {
    for text in texts {
        write!(line, " {}", text.as_str());
    }
}

impl<'a> ScriptedSystem<'a> {
    /// Creates a system that follows `scene`, without calls and children.
    pub fn new(scene: &'a Scene) -> ScriptedSystem<'a> {
        ScriptedSystem {
            scene,
            calls: 0,
            children: Vec::new(scene.alloc),
            moment_count: 0,
            moment: 0,
            log: ExampleOutput::new(scene.alloc),
            spawn_log: ExampleOutput::new(scene.alloc),
        }
    }

    /// Counts a call and ends its log line. Fails if the scene makes this call fail.
    fn log_call_end(&mut self) -> Result<(), OsFault> {
        let call = self.calls;
        self.calls = call.saturating_add(1);
        let (first, below) = self.scene.failing_calls;
        if call < first || below <= call {
            self.log.push("\n");
            return Ok(());
        }
        self.log.push(" failed\n");
        match self.scene.no_memory {
            Some(refusal) => Err(OsFault::Memory(refusal)),
            None => Err(OsFault::Failed),
        }
    }

    /// Logs the call `name` with its path `path`, and fails if the scene makes this call fail.
    fn log_path_call(&mut self, name: &str, path: &Text) -> Result<(), OsFault> {
        write!(self.log, "{name} {}", path.as_str());
        self.log_call_end()
    }

    /// Appends `name` and the child `child` to the log: its attempt number, after `cleanup` for a
    /// cleanup.
    fn push_child(&mut self, name: &str, child: Child) {
        let role = match child.role {
            Role::Body => "",
            Role::Cleanup => "cleanup ",
        };
        write!(self.log, "{name} {role}{}", child.attempt);
    }

    /// Logs the call `name` with its child `child`, and fails if the scene makes this call fail.
    fn log_child_call(&mut self, name: &str, child: Child) -> Result<(), OsFault> {
        self.push_child(name, child);
        self.log_call_end()
    }

    /// Returns the scene's next timestamp. If none remains, returns the last timestamp plus the
    /// scene's step.
    fn next_moment(&mut self) -> u64 {
        match self.scene.moments.get(self.moment_count) {
            Some(moment) => {
                self.moment_count = self.moment_count.saturating_add(1);
                self.moment = *moment;
            }
            None => self.moment = self.moment.saturating_add(self.scene.step),
        }
        self.moment
    }
}

impl Os for ScriptedSystem<'_> {
    ghost leads = { λ _ _ _. Unit {0} };

    fn set_limit(&mut self, child: Child, limit: u64) {
        self.push_child("limit", child);
        write!(self.log, " {limit}\n");
    }

    fn make_dir(&mut self, path: &Text) -> Result<(), OsFault> {
        self.log_path_call("make", path)
    }

    fn remove_tree(&mut self, path: &Text) -> Result<(), OsFault> {
        self.log_path_call("remove", path)
    }

    fn open_output(&mut self, _child: Child, path: &Text) -> Result<(), OsFault> {
        self.log_path_call("open", path)
    }

    fn spawn(
        &mut self,
        child: Child,
        program: &Text,
        words: &Items<Text>,
        env: &EnvPlan,
        dir: &Text,
    ) -> Result<(), OsFault> {
        self.log_path_call("spawn", program)?;
        let line = &mut self.spawn_log;
        line.push(program.as_str());
        push_texts(line, words.as_slice());
        write!(line, ", in {}, with", dir.as_str());
        for variable in env.set.as_slice() {
            line.push_pair(" ", variable, "=");
        }
        line.push(", without");
        push_texts(line, env.removed.as_slice());
        line.push("\n");
        if let Err(refusal) = self.children.push((child, 0)) {
            self.log.record_failure(NoMemory::from(refusal));
        }
        Ok(())
    }

    fn poll(&mut self, child: Child) -> Result<ChildState, OsFault> {
        let status = poll_child(
            self.scene.child_scripts.as_slice(),
            &mut self.children,
            child,
        );
        self.log_child_call("poll", child)?;
        Ok(status)
    }

    fn kill(&mut self, child: Child) -> Result<(), OsFault> {
        self.log_child_call("kill", child)
    }

    fn pause(&mut self) -> Result<(), OsFault> {
        self.log.push("pause");
        self.log_call_end()
    }

    fn read_file(&mut self, path: &Text, limit: u64) -> Result<FileRead, OsFault> {
        self.log_path_call("read", path)?;
        read_scene_file(self.scene, path, 0, limit)
    }

    fn read_part(&mut self, path: &Text, from: u64, limit: u64) -> Result<FileRead, OsFault> {
        self.log_path_call("part", path)?;
        read_scene_file(self.scene, path, from, limit)
    }

    fn now(&mut self) -> Result<u64, OsFault> {
        let moment = self.next_moment();
        self.log.push("now");
        self.log_call_end()?;
        Ok(moment)
    }
}

ghost use Rattle.std.specs.Prelude.{◌≡◌, ◌≤◌, ◌++◌, ◌∷◌, [], false, ◌==◌, IfOk, IfSome};
ghost use Rattle.std.specs.List.{list_any};
ghost use Rattle.kt_removal.specs.Common.{IsCaseDirectory, IsRemovable, HasNextDirectory, MayEmpty, MayRemove, KeepsQueue, root_limit_micros, is_entry_name, queued_dir, min_root_steps, waiting};

use crate::bounds::RemovalLimit;
use crate::cases::is_case_directory;
use crate::identity::DirIdentity;
use crate::state::Removals;
use crate::{entries, numbered_path};
use kt_base::{NoMemory, Text};
use std::alloc::Global;
use std::io::{ErrorKind, Read};
use std::rt::{Clock, Files};
use std::time::Duration;
use std::{fs, io, thread};

/// The size of the buffer for the names of a directory's entries, in bytes.
const NAMES_BYTES: usize = 1_024;

/// Returns the path of the directory with the number `number` in the queue directory `queue_dir`.
fn queued_path(alloc: Global, queue_dir: &Text, number: u64) -> Result<Text, NoMemory>
    ensures { IfOk result (λ path. path ≡ queued_dir queue_dir.now number) }
{
    let path = numbered_path(alloc, queue_dir, "/", number)?;
    Ok(path)
}

/// Splits `names`, in which each name ends with a zero byte, after its first name.
///
/// Returns the first name without its zero byte, and the bytes after that byte. Returns `None` if
/// `names` contains no zero byte.
fn split_name(names: &[u8]) -> Option<(&[u8], &[u8])>
    ensures { IfSome result (λ parts. names.now ≡ parts.0.now ++ 0 ∷ parts.1.now) }
{
    let end = names.iter().position(|byte| *byte == 0)?;
    Some((&names[..end], &names[end + 1..]))
}

impl Removals {
    ghost use Rattle.std.specs.Prelude.{◌<◌, ◌↔◌, ◌+◌, ◌-◌, ◌^◌, ◌⊎◌, min, true, IsTrue};

    /// Creates an empty queue for removals in the directory `root`, with the queue directory
    /// `queue_dir`.
    ///
    /// The caller has just created both directories.
    ///
    /// # Errors
    ///
    /// - `NotADirectory`: `root` or `queue_dir` is not a directory.
    /// - Any other error: the status of `root` or `queue_dir` can't be read.
    pub fn new<R: Files + AllocGlobal>(rt: &R, root: Text, queue_dir: Text) -> io::Result<Removals>
        ensures root { IfOk result (λ removals. removals.root ≡ root) }
        ensures queue_dir { IfOk result (λ removals. removals.queue_dir ≡ queue_dir) }
    {
        let root_identity = DirIdentity::from_path(rt, root.as_str())?;
        let queue_identity = DirIdentity::from_path(rt, queue_dir.as_str())?;
        let gaps = Vec::new(rt.alloc());
        Ok(Removals {
            root,
            queue_dir,
            root_identity,
            queue_identity,
            next_number: 0,
            current_number: 0,
            gaps,
            progress: false,
        })
    }

    /// Returns `true` if the queue directory is still at its path.
    ///
    /// Returns `false` if a process removed or replaced the queue directory, or if its status can't
    /// be read.
    fn has_queue_dir<R: Files>(&self, rt: &R) -> bool {
        self.queue_identity.is_at(rt, self.queue_dir.as_str())
    }

    /// Returns the path in the queue directory to which the next directory is moved.
    fn next_queued_path(&self, alloc: Global) -> Result<Text, NoMemory>
        ensures { IfOk result (λ path. path ≡ queued_dir self.now.queue_dir self.now.next_number) }
    {
        queued_path(alloc, &self.queue_dir, self.next_number)
    }

    /// Returns `true` if no directory of the queue has the number `current_number`, because the
    /// move to this number failed.
    fn is_gap(&self) -> bool
        ensures { result ≡ list_any (λ n. n == self.now.current_number) self.now.gaps.items }
    {
        self.gaps.as_slice().contains(&self.current_number)
    }

    /// Returns the number of directories in the queue, at most 2^32 - 1. A number that was skipped
    /// after a failed move counts, too.
    fn queue_length(&self) -> u32
        ensures { result ≡ waiting self.now.next_number self.now.current_number }
    {
        u32::try_from(self.next_number.saturating_sub(self.current_number)).unwrap_or(u32::MAX)
    }

    /// Returns `true` if a number of the queue was not handled yet: its directory is still to be
    /// removed, or the number has no directory, because the move to it failed.
    fn is_pending(&self) -> bool
        ensures { IsTrue result ↔ (self.now.current_number < self.now.next_number) }
    {
        self.current_number < self.next_number
    }

    /// Returns the path of the queued directory that is emptied next.
    fn next_dir_path(&self, alloc: Global) -> Result<Text, NoMemory>
        ensures { IfOk result (λ path. path ≡ queued_dir self.now.queue_dir self.now.current_number) }
    {
        queued_path(alloc, &self.queue_dir, self.current_number)
    }

    /// Removes the empty directory `path`, or a file that a process put at this path. Returns
    /// `true` on success.
    fn remove_empty_or_file<R: Files>(&self, rt: &R, path: &Text) -> bool
        requires { IsRemovable self.now path.now }
    {
        self.remove_if_empty(rt, path) || self.remove_file(rt, path.as_bytes()).is_ok()
    }

    /// Skips the number for a directory whose move into the queue failed.
    ///
    /// The next moved directory gets the number after it. If an allocation fails, the number is not
    /// skipped, so the next move tries it again.
    fn skip_number(&mut self)
        ensures stays { KeepsQueue self.old self.new }
        ensures gap { (self.new.next_number ≡ self.old.next_number)
            ⊎ (self.new.gaps.items ≡ self.old.gaps.items ++ self.old.next_number ∷ []) }
    {
        if self.gaps.push(self.next_number).is_ok() {
            self.next_number = self.next_number.saturating_add(1);
        }
    }

    /// Moves the directory `path` into the queue, with the next number. Returns `true` on success.
    ///
    /// If the move fails, the number is skipped, unless an allocation fails.
    fn enqueue<R: Files + AllocGlobal>(&mut self, rt: &R, path: &[u8]) -> bool
        requires { MayRemove self.old path.now }
        ensures stays { KeepsQueue self.old self.new }
        ensures unmoved { result ≡ false → (self.new.next_number ≡ self.old.next_number)
            ⊎ (self.new.gaps.items ≡ self.old.gaps.items ++ self.old.next_number ∷ []) }
    {
        let Ok(to) = self.next_queued_path(rt.alloc()) else {
            return false;
        };
        if self.has_queue_dir(rt) && self.move_into_queue(rt, path, &to).is_ok() {
            self.next_number = self.next_number.saturating_add(1);
            return true;
        }
        self.skip_number();
        false
    }

    /// Removes the directory `path` if it is empty, and moves it into the queue if it has entries.
    ///
    /// If the removal fails for another reason, the directory is left. A mount point is left, too,
    /// because it is busy.
    fn remove_directory<R: Files + AllocGlobal>(&mut self, rt: &R, path: &[u8])
        requires { MayRemove self.old path.now }
        ensures stays { KeepsQueue self.old self.new }
    {
        match self.remove_empty_dir(rt, path) {
            Ok(()) => self.progress = true,
            Err(error) => {
                let full = error.kind() == ErrorKind::DirectoryNotEmpty;
                if full && self.set_owner_mode(path) && self.enqueue(rt, path) {
                    self.progress = true;
                }
            }
        }
    }

    /// Removes the entry `name` of `directory`, or moves it into the queue if it is a directory
    /// with entries.
    ///
    /// The queue directory itself is left, and so is the entry if the allocation of its path fails.
    fn remove_entry<R: Files + AllocGlobal>(&mut self, rt: &R, directory: &Text, name: &[u8])
        requires may { MayEmpty self.old directory.now }
        requires name { is_entry_name name.now ≡ true }
        ensures stays { KeepsQueue self.old self.new }
    {
        let Ok(path) = entries::entry_path(rt.alloc(), directory, name) else {
            return;
        };
        if self.remove_file(rt, path.as_slice()).is_ok() {
            self.progress = true;
        } else if path.as_slice() != self.queue_dir.as_bytes() {
            self.remove_directory(rt, path.as_slice());
        }
    }

    /// Removes the entries of `directory` whose names are in `names`. Each name ends with byte 0.
    fn remove_named_entries<R: Files + AllocGlobal>(
        &mut self,
        rt: &R,
        directory: &Text,
        names: &[u8],
    )
        requires { MayEmpty self.old directory.now }
        ensures stays { KeepsQueue self.old self.new }
    {
        let mut left = names;
        for _ in 0..NAMES_BYTES {
            let Some((name, rest)) = split_name(left) else {
                return;
            };
            if entries::is_entry_name(name) {
                self.remove_entry(rt, directory, name);
            }
            left = rest;
        }
    }

    /// Reads the next names of entries of `directory` from the open directory `names`, and removes
    /// these entries.
    ///
    /// Returns `false` at the end of the directory, or if the read fails.
    fn remove_next_entries<R: Files + AllocGlobal>(
        &mut self,
        rt: &R,
        directory: &Text,
        names: &mut R::Dir,
    ) -> bool
        requires { MayEmpty self.old directory.now }
        ensures stays { KeepsQueue self.old self.new }
    {
        let mut buffer = [0u8; NAMES_BYTES];
        match names.read(&mut buffer) {
            Ok(count) => {
                self.remove_named_entries(rt, directory, &buffer[..count]);
                count > 0
            }
            Err(_) => false,
        }
    }

    /// Removes `path`, the queued directory that was just emptied, and advances the queue by one
    /// number.
    ///
    /// If the directory still has entries, it is moved to the end of the queue. It is left if no
    /// entry of it could be removed or moved, or if its own move fails.
    fn remove_emptied_dir<R: Files + AllocGlobal>(&mut self, rt: &R, path: &Text)
        requires moved { HasNextDirectory self.old }
        requires path { path.now ≡ queued_dir self.old.queue_dir self.old.current_number }
        ensures root { self.new.root ≡ self.old.root }
        ensures queue_dir { self.new.queue_dir ≡ self.old.queue_dir }
        ensures progress { self.new.progress ≡ false }
        ensures current_number { self.new.current_number ≡ min (self.old.current_number + 1) (2 ^ 64 - 1) }
    {
        if !self.remove_empty_or_file(rt, path) && self.progress {
            let _ = self.enqueue(rt, path.as_bytes());
        }
        self.advance_queue();
    }

    /// Advances the queue by one number, to the directory that is emptied next. Sets `progress` to
    /// `false`.
    fn advance_queue(&mut self)
        ensures root { self.new.root ≡ self.old.root }
        ensures queue_dir { self.new.queue_dir ≡ self.old.queue_dir }
        ensures progress { self.new.progress ≡ false }
        ensures current_number { self.new.current_number ≡ min (self.old.current_number + 1) (2 ^ 64 - 1) }
    {
        self.progress = false;
        self.current_number = self.current_number.saturating_add(1);
    }

    /// Removes the entries of `directory` until all their names are read or the time limit `bound`
    /// stops the removal.
    ///
    /// An entry that is a directory with entries is moved into the queue.
    ///
    /// Returns `true` if all names were read, or if the directory can't be opened or read. The
    /// entries of the first read are removed even if the time limit has passed.
    fn empty_directory<R: Files + Clock + AllocGlobal>(
        &mut self,
        rt: &R,
        directory: &Text,
        bound: &mut RemovalLimit,
    ) -> bool
        requires { MayEmpty self.old directory.now }
        ensures stays { KeepsQueue self.old self.new }
    {
        let Some(mut names) = self.open_directory(rt, directory) else {
            return true;
        };
        for _ in 0..bound.micros {
            if !self.remove_next_entries(rt, directory, &mut names) {
                return true;
            }
            if bound.must_stop_after_step(rt) {
                return false;
            }
        }
        false
    }

    /// Empties `path`, the next directory of the queue, within the time limit `bound`.
    ///
    /// Returns `true` if all names of its entries were read, or if the directory can't be opened or
    /// read. Otherwise, the next call begins again with this directory, or with the next one if no
    /// entry could be removed or moved.
    fn empty_next_dir<R: Files + Clock + AllocGlobal>(
        &mut self,
        rt: &R,
        path: &Text,
        bound: &mut RemovalLimit,
    ) -> bool
        requires moved { HasNextDirectory self.old }
        requires path { path.now ≡ queued_dir self.old.queue_dir self.old.current_number }
        ensures root { self.new.root ≡ self.old.root }
        ensures queue_dir { self.new.queue_dir ≡ self.old.queue_dir }
        ensures passed { result ≡ false → self.new.progress ≡ false
            → self.new.current_number ≡ min (self.old.current_number + 1) (2 ^ 64 - 1) }
    {
        self.progress = false;
        let ended = self.empty_directory(rt, path, bound);
        if ended {
            self.remove_emptied_dir(rt, path);
        } else if !self.progress {
            self.advance_queue();
        }
        ended
    }

    /// Empties the next directory of the queue, or skips a number that no directory has.
    ///
    /// Returns `true` if another step may follow within the time limit `bound`. If the allocation
    /// of the path fails, the next step tries the directory again.
    fn empty_or_skip_next_dir<R: Files + Clock + AllocGlobal>(
        &mut self,
        rt: &R,
        bound: &mut RemovalLimit,
    ) -> bool
        requires { self.old.current_number < self.old.next_number }
        ensures root { self.new.root ≡ self.old.root }
        ensures queue_dir { self.new.queue_dir ≡ self.old.queue_dir }
    {
        if self.is_gap() {
            self.advance_queue();
            return true;
        }
        let Ok(path) = self.next_dir_path(rt.alloc()) else {
            return !bound.must_stop_after_step(rt);
        };
        self.empty_next_dir(rt, &path, bound)
    }

    /// Empties the directories of the queue in order, until the time limit `bound` stops the
    /// removal.
    ///
    /// If the queue directory was removed or replaced, its entries are left.
    fn empty_queue<R: Files + Clock + AllocGlobal>(&mut self, rt: &R, bound: &mut RemovalLimit)
        ensures root { self.new.root ≡ self.old.root }
        ensures queue_dir { self.new.queue_dir ≡ self.old.queue_dir }
    {
        for _ in 0..bound.micros {
            if !self.is_pending() {
                return;
            }
            if !self.has_queue_dir(rt) {
                self.current_number = self.next_number;
                return;
            }
            if !self.empty_or_skip_next_dir(rt, bound) {
                return;
            }
        }
    }

    /// Creates the queue directory again if a process removed or replaced it.
    ///
    /// The creation fails if another directory with entries is at the path. The directories of the
    /// old queue are left.
    fn recreate_queue_dir<R: Files + AllocGlobal>(&mut self, rt: &R)
        ensures root { self.new.root ≡ self.old.root }
        ensures queue_dir { self.new.queue_dir ≡ self.old.queue_dir }
    {
        if self.has_queue_dir(rt) {
            return;
        }
        self.current_number = self.next_number;
        let _ = self.remove_empty_or_file(rt, &self.queue_dir);
        if fs::create_dir(rt, self.queue_dir.as_str()).is_err() {
            return;
        }
        if let Ok(identity) = DirIdentity::from_path(rt, self.queue_dir.as_str()) {
            self.queue_identity = identity;
        }
    }

    /// Removes `root`, the root directory of all attempts, with its entries. Returns `true` on
    /// success.
    ///
    /// The time limit grows with the number of directories in the queue.
    fn remove_root<R: Files + Clock + AllocGlobal>(&mut self, rt: &R, root: &Text) -> bool
        requires { root.now ≡ self.old.root }
        ensures queue_dir { self.new.queue_dir ≡ self.old.queue_dir }
    {
        self.recreate_queue_dir(rt);
        let mut bound = RemovalLimit::root_limit(rt, self.queue_length());
        self.remove_root_within(rt, root, &mut bound)
    }

    /// Removes `root`, the root directory of all attempts, with its entries, until the time limit
    /// `bound` stops the removal. Returns `true` on success.
    fn remove_root_within<R: Files + Clock + AllocGlobal>(
        &mut self,
        rt: &R,
        root: &Text,
        bound: &mut RemovalLimit,
    ) -> bool
        requires root { root.now ≡ self.old.root }
        requires micros { bound.old.micros ≡ root_limit_micros (waiting self.old.next_number self.old.current_number) }
        requires min_steps { bound.old.min_steps ≡ min_root_steps (waiting self.old.next_number
            self.old.current_number) }
        ensures queue_dir { self.new.queue_dir ≡ self.old.queue_dir }
    {
        let _ = self.empty_directory(rt, root, bound);
        self.empty_queue(rt, bound);
        if !self.remove_if_empty(rt, &self.queue_dir) {
            self.empty_queue_dir(rt, bound);
        }
        self.remove_if_empty(rt, root)
    }

    /// Empties the queue directory once more within the time limit `bound`, and removes it.
    ///
    /// The queue directory can still have directories that were skipped, for example because the
    /// allocation of an entry's path failed. A queue directory that was replaced or still has
    /// entries afterwards is left.
    fn empty_queue_dir<R: Files + Clock + AllocGlobal>(&mut self, rt: &R, bound: &mut RemovalLimit)
        ensures root { self.new.root ≡ self.old.root }
        ensures queue_dir { self.new.queue_dir ≡ self.old.queue_dir }
    {
        let Ok(queue_dir) = self.queue_dir.copy() else {
            return;
        };
        if self.has_queue_dir(rt) {
            let _ = self.empty_directory(rt, &queue_dir, bound);
            self.empty_queue(rt, bound);
            let _ = self.remove_if_empty(rt, &queue_dir);
        }
    }

    /// Empties and removes `tree`, the directory of a case, or moves it into the queue.
    ///
    /// `tree` is moved if it can't be removed within the time limit `bound`. Returns `true` if
    /// `tree` was removed or moved.
    fn remove_or_enqueue<R: Files + Clock + AllocGlobal>(
        &mut self,
        rt: &R,
        tree: &Text,
        bound: &mut RemovalLimit,
    ) -> bool
        requires { IsCaseDirectory self.old.root tree.now }
        ensures root { self.new.root ≡ self.old.root }
        ensures queue_dir { self.new.queue_dir ≡ self.old.queue_dir }
    {
        let _ = self.empty_directory(rt, tree, bound);
        self.remove_empty_or_file(rt, tree) || self.enqueue(rt, tree.as_bytes())
    }

    /// Removes `tree`, the directory of a case, or moves it into the queue. Then empties the queue.
    ///
    /// The time limit for both is 5 milliseconds. Returns `true` if `tree` was removed or moved.
    fn remove_case<R: Files + Clock + AllocGlobal>(&mut self, rt: &R, tree: &Text) -> bool
        requires { IsCaseDirectory self.old.root tree.now }
        ensures queue_dir { self.new.queue_dir ≡ self.old.queue_dir }
    {
        let mut bound = RemovalLimit::case_limit(rt);
        let gone = self.remove_known_files(rt, tree)
            || self.remove_or_enqueue(rt, tree, &mut bound);
        self.empty_queue(rt, &mut bound);
        gone
    }

    /// Removes the directory `tree` with all entries, if it is the root or the directory of a case.
    ///
    /// Returns `true` if `tree` was removed or moved. A case's directory that takes too long to
    /// empty is moved into the queue, and is removed later. The root itself is not moved.
    ///
    /// Symbolic links are not followed. Any other path is left as it is, and so are all paths if
    /// the root was removed or replaced.
    pub fn remove_tree<R: Files + Clock + AllocGlobal>(&mut self, rt: &R, tree: &Text) -> bool
        ensures queue_dir { self.new.queue_dir ≡ self.old.queue_dir }
        ensures outside { result ≡ true → (tree.now ≡ self.old.root)
            ⊎ IsCaseDirectory self.old.root tree.now }
    {
        if !self.root_identity.is_at(rt, self.root.as_str()) {
            return false;
        }
        if tree.as_str() == self.root.as_str() {
            return self.remove_root(rt, tree);
        }
        is_case_directory(&self.root, tree) && self.remove_case(rt, tree)
    }
}

/// Empties the queue `removals` until `micros` microseconds have passed, or sleeps for that time.
///
/// The call sleeps if `removals` is `None` or the queue is empty. It returns early if all
/// directories of the queue are emptied, and late if the system takes long to remove an entry.
/// Returns the number of microseconds that passed, or `micros` if fewer passed or the clock failed.
pub fn empty_queue_or_sleep<R: Files + Clock + AllocGlobal>(
    removals: &mut Option<Removals>,
    rt: &R,
    micros: u64,
) -> u64
    ensures { micros ≤ result }
{
    if let Some(removals) = removals {
        if removals.is_pending() {
            let mut bound = RemovalLimit::from_now(rt, micros);
            removals.empty_queue(rt, &mut bound);
            return bound.elapsed_micros_or_zero(rt).max(micros);
        }
    }
    thread::sleep(rt, Duration::from_micros(micros));
    micros
}

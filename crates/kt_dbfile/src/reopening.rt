ghost use Rattle.std.specs.Prelude.{List, [], IsTrue};
ghost use Rattle.kt_dbfile.specs.Common.{AreNumbered, AreOrdered, OpensAndCloses, FailsToClose, RepresentsImage, HasCommitted, HasTrees, HoldsRuns, IsSchema2Of, IsSchema2OfOne, Run, StaysNumbered};
ghost use Rattle.kt_store.specs.TrustedContents.{IsTrustedImage};
ghost use Rattle.sqlite_store.specs.FileStore.{files, recovers, view};
ghost use Rattle.sqlite_store.specs.declared.store.FileStore.{FileStore as Stored};
ghost use Rattle.sqlite_trees.specs.Tree.{Trees};
ghost use Rattle.sqlite_trees.specs.View.{IsClean};
ghost use Rattle.sqlite_wal.specs.Files.{outcomes};
ghost use Rattle.sqlite_wal.specs.Reads.{AreClean};
ghost use Rattle.sqlite_wal.specs.Recovery.{Image};

use sqlite_disk::Disk;

/// Theorem: after a process has closed the results file, the next process that opens the file finds
/// the runs of the last commit. The premises are `OpensAndCloses` for the first process and
/// `RepresentsImage` for the next process.
///
/// The facts in `OpensAndCloses` are clauses of [`RunsFile`](crate::RunsFile), of its open, its
/// calls and its close, except `checked` and `honest`. After a close, the files hold the runs of
/// the last commit, with the log and without it. The assumption on opened files (`IsTrustedImage`)
/// holds for these files. A store that finds the files has these runs, and a crash leaves the runs.
///
/// A close that fails returns its store. The files then have the runs that a crash may leave
/// (`left`). The next store finds these runs if the trees are still numbered (`failed`). If the
/// trees were numbered before the close and the returned store is open, the files hold the runs of
/// the last commit (`kept`).
pub fn theorem_of_reopening<D: Disk, E: Disk>()
    ensures held { (before after : Image) (last : Stored D D.Disk) (runs : List Run)
        → OpensAndCloses before last runs after
        → HoldsRuns after runs × HoldsRuns (record after { log = [] }) runs }
    ensures supposed { (before after : Image) (last : Stored D D.Disk) (runs : List Run)
        → OpensAndCloses before last runs after
        → ∥ IsTrustedImage after ∥₁ × ∥ IsTrustedImage (record after { log = [] }) ∥₁ }
    ensures found { (before after : Image) (last : Stored D D.Disk) (runs : List Run)
        → OpensAndCloses before last runs after → (next : Stored E E.Disk) → RepresentsImage after next
        → HasCommitted (view next) runs × AreNumbered 1 runs
        × (IsClean (view next) → AreOrdered runs)
        × (IsClean (view next) → (trees : Trees) → recovers next trees → IsSchema2Of runs trees) }
    ensures left { (store left : Stored D D.Disk) (may : List (List Run)) (after : Image)
        → (IsClean (view store) → (trees : Trees) → recovers store trees → IsSchema2OfOne may trees)
        → FailsToClose store left → AreClean D.Disk (files left).0 (files left).1
        → outcomes D.Disk (files left).0 (files left).1 after
        → ∥ ((trees : Trees) × HasTrees (view left).is_numbered trees after
        × IsSchema2OfOne may trees) ∥₁ }
    ensures failed { (store left : Stored D D.Disk) (may : List (List Run)) (after : Image)
        → (IsClean (view store) → (trees : Trees) → recovers store trees → IsSchema2OfOne may trees)
        → FailsToClose store left → IsTrue (view left).is_numbered
        → AreClean D.Disk (files left).0 (files left).1
        → outcomes D.Disk (files left).0 (files left).1 after
        → (next : Stored E E.Disk) → RepresentsImage after next → IsTrue (view next).is_open
        → ∥ IsSchema2OfOne may (view next).committed ∥₁ }
    ensures kept { (store left : Stored D D.Disk) (runs : List Run) (after : Image)
        → HasCommitted (view store) runs → IsTrue (view store).is_numbered
        → FailsToClose store left → StaysNumbered (view store) (view left)
        → IsTrue (view left).is_open
        → AreClean D.Disk (files left).0 (files left).1
        → outcomes D.Disk (files left).0 (files left).1 after
        → HoldsRuns after runs
        × ((next : Stored E E.Disk) → RepresentsImage after next → HasCommitted (view next) runs) }
{}

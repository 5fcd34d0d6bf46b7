ghost use Rattle.std.specs.Prelude.{List, [], ◌∷◌};
ghost use Rattle.kt_store.specs.Common.{Run, Held, state, Survives, IsSchema2Of, IsSchema2OfOne, Leaves};

use sqlite::Alter;

/// Theorem: if the disk has returned no wrong data, the calls on a store determine which lists of
/// runs a crash may leave.
///
/// After a call that committed, a crash leaves the runs after this call. A later call that may
/// write adds one possible list: the runs after the later call. A later call that only reads adds
/// no list.
pub fn theorem_of_crashes<S: Alter>()
    ensures done { (s : Held S) (runs : List Run) → Leaves (state S.Store s) (IsSchema2Of runs)
        → Leaves (state S.Store s) (IsSchema2OfOne (runs ∷ [])) }
    ensures written { (old new : Held S) (before : List (List Run)) (after : List Run)
        → Leaves (state S.Store old) (IsSchema2OfOne before)
        → Survives (state S.Store old) (state S.Store new) (IsSchema2Of after)
        → Leaves (state S.Store new) (IsSchema2OfOne (after ∷ before)) }
    ensures read { (old new : Held S) (before : List (List Run))
        → Leaves (state S.Store old) (IsSchema2OfOne before)
        → Survives (state S.Store old) (state S.Store new) (λ _. ⊥)
        → Leaves (state S.Store new) (IsSchema2OfOne before) }
{}

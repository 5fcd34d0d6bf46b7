ghost use Rattle.std.specs.Prelude.{◌≡◌, ℕ, List, [], ◌∷◌, ◌++◌, None, IsSome};
ghost use Rattle.kt_base.specs.Common.{Variable, value_of, last_values, Replaces};

/// Theorem: in the list `last_values pairs`, each name has the value of its last pair in `pairs`.
///
/// If a pair is appended to `pairs`, it replaces the pair with its name in the last values. If no
/// pair has its name, the appended pair is also appended to the last values. Joining two lists
/// gives the same last values as joining the last values of each list.
pub fn theorem_of_last_values()
    ensures value { (name : List ℕ) → (pairs : List Variable)
        → value_of name (last_values pairs) ≡ value_of name pairs }

    // In the last values, an appended pair replaces the pair with its name. If no pair has its
    // name, it is appended.
    ensures replaced { (pairs : List Variable) → (pair : Variable)
        → IsSome (value_of pair.name pairs)
        → Replaces pair (last_values pairs) (last_values (pairs ++ pair ∷ [])) }
    ensures appended { (pairs : List Variable) → (pair : Variable) → value_of pair.name pairs ≡ None
        → last_values (pairs ++ pair ∷ []) ≡ last_values pairs ++ pair ∷ [] }

    // Joining two lists gives the same last values as joining the last values of each list.
    ensures overlaid { (under : List Variable) → (over : List Variable)
        → last_values (last_values under ++ last_values over) ≡ last_values (under ++ over) }
{}

//! The children of a scripted launcher: an array with the state of each case.

ghost use Rattle.std.specs.Prelude.{◌≡◌, ◌==◌, ◌<◌, ℕ, None, Some, IfSome, if◌then◌else◌, slice_index_or};
ghost use Rattle.kt_base.specs.declared.child.Role.{Role};
ghost use Rattle.kt_sched.specs.Children.{Child};
ghost use Rattle.kt_doubles.specs.declared.children.ChildSlot.TheVariants.{Free as TheFree};
ghost use Rattle.kt_doubles.specs.Children.{running_child_at};

use kt_base::{Interface, Role};

/// The number of cases for which a scripted launcher stores a state. Cases at position 2,048 and
/// above can't be started.
pub const MAX_POSITIONS: u32 = 2_048;

/// The state of a case in a scripted launcher.
#[derive(Clone, Copy)]
pub enum ChildSlot {
    /// No child of the case runs, and no cleanup is pending.
    Free,
    /// The body runs. The fields are the interface of its program, and `true` if the case declares
    /// a cleanup.
    BodyRunning(Interface, bool),
    /// The body has ended, and its cleanup is pending.
    CleanupPending,
    /// The cleanup runs. The fields are the interface of its program, and `true` if the case
    /// declares a cleanup.
    CleanupRunning(Interface, bool),
}

/// The states of the cases in a scripted launcher, by position.
pub type ChildSlots = [ChildSlot; 2048];

/// A running child: its role, its interface, and `true` if its case declares a cleanup.
pub type SlotChild = (Role, Interface, bool);

/// Creates the states of 2,048 cases, in which no child runs and no cleanup is pending.
pub fn create_free_slots() -> ChildSlots
    ensures { (k : ℕ) → slice_index_or result k TheFree ≡ TheFree }
{
    [ChildSlot::Free; 2048]
}

/// Sets the state of the case at position `at` of `slots` to `slot`.
pub fn set_slot(slots: &mut ChildSlots, at: u32, slot: ChildSlot)
    requires { at < 2048 }
    ensures { (k : ℕ) → slice_index_or slots.new k TheFree
        ≡ (if k == at then slot else slice_index_or slots.old k TheFree) }
{
    slots[at as usize] = slot;
}

/// Returns the running child of the case at position `at` of `slots`, or `None` if the case has no
/// running child.
fn child_at(slots: &ChildSlots, at: u32) -> Option<SlotChild>
    requires { at < 2048 }
    ensures none { result ≡ None → (role : Role) → running_child_at slots.now at role ≡ None }
    ensures runs { IfSome result (λ c. running_child_at slots.now at c.0
        ≡ Some (record { interface = c.1; cleanup = c.2 })) }
{
    match slots[at as usize] {
        ChildSlot::Free | ChildSlot::CleanupPending => None,
        ChildSlot::BodyRunning(interface, cleanup) => Some((Role::Body, interface, cleanup)),
        ChildSlot::CleanupRunning(interface, cleanup) => Some((Role::Cleanup, interface, cleanup)),
    }
}

/// Returns a running child of `slots` with its position: the child at position `named`, or else
/// the first running child. The caller guarantees that a child is running.
pub fn running_child(slots: &ChildSlots, named: u32) -> (u32, SlotChild)
    requires { (i : ℕ) × (role : Role) × (child : Child)
        × (running_child_at slots.now i role ≡ Some child) }
    ensures within { result.0 < 2048 }
    ensures runs { running_child_at slots.now result.0 result.1.0
        ≡ Some (record { interface = result.1.1; cleanup = result.1.2 }) }
{
    if named < MAX_POSITIONS {
        if let Some(child) = child_at(slots, named) {
            return (named, child);
        }
    }
    for k in 0..MAX_POSITIONS {
        if let Some(child) = child_at(slots, k) {
            return (k, child);
        }
    }
    unreachable!()
}

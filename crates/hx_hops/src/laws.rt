//! Laws of distances and hops. Each function says one, and does nothing.
ghost use Rattle.std.specs.Prelude.{◌≡◌, ◌+◌, ◌<◌, ◌≤◌, ◌↔◌, List, length, None, Some, IsTrue};
ghost use Rattle.hx_ids.specs.declared.StateId.{StateId};
ghost use Rattle.hx_model.specs.declared.ModelParts.{ModelParts};
ghost use Rattle.hx_model.specs.Faults.{fault_of};
ghost use Rattle.hx_model.specs.Model.{is_legal, rank_of};
ghost use Rattle.hx_hops.specs.Hops.{dist, hop, is_from, is_goal, leads};

/// No walk to a goal has fewer transitions than the distance, however long it is.
pub fn no_walk_is_shorter()
    ensures { (m : ModelParts) (s goal : StateId) (path : List StateId)
        → IsTrue (leads m s path goal)
        → dist m s goal ≤ length path }
{}

/// In a model without a fault some walk has as many, and so each goal can be reached.
pub fn some_walk_is_as_short()
    ensures { (m : ModelParts) (s goal : StateId)
        → fault_of m ≡ None → IsTrue (is_from m s) → IsTrue (is_goal m goal)
        → (path : List StateId) × IsTrue (leads m s path goal) × (length path ≡ dist m s goal) }
{}

/// The distance is at most one more than the number of states.
pub fn distances_are_short()
    ensures { (m : ModelParts) (s goal : StateId)
        → fault_of m ≡ None
        → IsTrue (is_from m s)
        → IsTrue (is_goal m goal)
        → dist m s goal < length m.states + 2 }
{}

/// A hop is legal and one transition nearer, and no such state has a lower rank.
pub fn a_hop_is_nearer_and_first()
    ensures { (m : ModelParts) (s goal t : StateId) → hop m s goal ≡ Some t
        → IsTrue (is_legal m s t)
        × (dist m t goal + 1 ≡ dist m s goal)
        × ((u : StateId) → dist m u goal + 1 ≡ dist m s goal → rank_of m s t ≤ rank_of m s u) }
{}

/// In a model without a fault there is no hop at the goal alone.
pub fn no_hop_at_the_goal_alone()
    ensures { (m : ModelParts) (s goal : StateId)
        → fault_of m ≡ None
        → IsTrue (is_from m s)
        → IsTrue (is_goal m goal)
        → (hop m s goal ≡ None ↔ (s ≡ goal)) }
{}

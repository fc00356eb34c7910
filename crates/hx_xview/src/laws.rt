//! Laws of views and of what is looked up in them, over the definitions alone.
ghost use Rattle.std.specs.Prelude.{◌≡◌, List, map, filter, ◌==◌};
ghost use Rattle.hx_ids.specs.declared.PartId.{PartId};
ghost use Rattle.hx_ids.specs.declared.StateId.{StateId};
ghost use Rattle.hx_cluster.specs.declared.happenings.Seen.{Seen};
ghost use Rattle.hx_xview.specs.Views.{holders_of, routed, Shows};

/// Rows that show of each part what others show lead to the same instances.
pub fn routes_follow_what_is_shown()
    ensures { (shown rows : List Seen) → Shows shown rows → (p : PartId) (t : StateId)
        → routed shown p t ≡ routed rows p t }
{}

/// The instances that hold a part in a state are the holders that have it.
pub fn routes_are_holders()
    ensures { (rows : List Seen) (p : PartId) (t : StateId)
        → routed rows p t ≡ map (λ h. h.0) (filter (λ h. h.1.0 == t.0) (holders_of rows p)) }
{}

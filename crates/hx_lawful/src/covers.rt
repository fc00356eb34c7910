//! What a controller was shown, beside what the board has. The contract of each function is a law
//! over the definitions alone.
ghost use Rattle.std.specs.Prelude.{◌≡◌, ◌≤◌, ◌++◌, ◌&&◌, ℕ, true, false, List, Some, is_none};
ghost use Rattle.std.specs.Prelude.{length};
ghost use Rattle.std.specs.List.{list_any};
ghost use Rattle.hx_ids.specs.declared.ControllerId.{ControllerId};
ghost use Rattle.hx_ids.specs.declared.PartId.{PartId};
ghost use Rattle.hx_ids.specs.declared.StateId.{StateId};
ghost use Rattle.hx_cluster.specs.declared.state.Cluster.{Cluster};
ghost use Rattle.hx_cluster.specs.declared.planning.View.{View};
ghost use Rattle.hx_cluster.specs.declared.planning.Candidate.{Candidate};
ghost use Rattle.hx_cluster.specs.Ends.{is_live, state_of, count_over, count_of, limit_at};
ghost use Rattle.hx_cluster.specs.Ends.{load_over, load_of};
ghost use Rattle.hx_cluster.specs.Messages.{bounded, placed_of};
ghost use Rattle.hx_cluster.specs.Safe.{IsSafe};
ghost use Rattle.hx_cluster.specs.Ranged.{IsRanged};
ghost use Rattle.hx_select.specs.Selection.{shown_sessions};
ghost use Rattle.hx_pass.specs.Plans.{proposal};
ghost use Rattle.hx_cluster.specs.declared.description.Spec.{Spec};
ghost use Rattle.hx_cluster.specs.declared.description.Rule.{Rule};
ghost use Rattle.hx_cluster.specs.declared.happenings.Event.{Event};
ghost use Rattle.hx_cluster.specs.Steps.{opening, is_dropped};
ghost use Rattle.hx_cluster.specs.Events.{replay, IsLegal};
ghost use Rattle.hx_cluster.specs.Valid.{IsValid};
ghost use Rattle.hx_cluster.specs.Views.{is_well_formed};
ghost use Rattle.hx_pass.specs.Turns.{turn_of, view_of};
ghost use Rattle.hx_pass.specs.Lawful.{IsLawful};
ghost use Rattle.hx_lawful.specs.Covers.{stands, Covers};
ghost use Rattle.hx_lawful.specs.Gate.{Shows, IsWithin, IsFit, is_for};
ghost use Rattle.hx_lawful.specs.Reading.{is_read, view_with, IsTurn};

/// A controller's turn keeps its shape along every legal history.
pub fn legal_turns_keep_their_shape()
    ensures { (spec : Spec) (h : List Event) (k : ControllerId) → IsValid spec
        → IsLegal (opening spec) h
        → IsTurn (replay (opening spec) h) (turn_of spec k h) }
{}

/// Once a turn has only its send and its post left, what it was shown is well formed.
pub fn what_was_read_is_well_formed()
    ensures { (spec : Spec) (h : List Event) (k : ControllerId) → IsValid spec
        → IsLegal (opening spec) h
        → is_read (turn_of spec k h) ≡ true
        → is_well_formed spec.models (length spec.instances) (view_of spec k h) ≡ true }
{}

/// Before that, what it was shown so far is well formed with the resources that the board has.
pub fn what_was_shown_is_well_formed()
    ensures { (spec : Spec) (h : List Event) (k : ControllerId) → IsValid spec
        → IsLegal (opening spec) h
        → is_well_formed spec.models (length spec.instances)
        (view_with (replay (opening spec) h) (turn_of spec k h)) ≡ true }
{}

/// At each place of a lawful history what a controller was shown covers what the board has, while
/// the epoch and the pass of its begin stand: whatever happened between its reads.
pub fn lawful_reads_cover_the_board()
    ensures { (spec : Spec) (h more : List Event) (k : ControllerId) → IsValid spec
        → IsLawful spec (h ++ more) → Covers spec h k }
{}

/// So once only the send and the post are left, and the numbers stand, the view shows what the
/// board has, but for messages that moved replicas since.
pub fn lawful_views_show_the_board()
    ensures { (spec : Spec) (h : List Event) (k : ControllerId) → IsValid spec → IsLawful spec h
        → is_read (turn_of spec k h) ≡ true
        → stands (replay (opening spec) h) k (turn_of spec k h) ≡ true
        → Shows (replay (opening spec) h) (view_of spec k h) }
{}

/// Where a view shows the board, nothing but a bound or a throttle refuses a candidate that fits
/// the view: its replica has no message, stands where it was shown, and the transition is legal. It
/// is of a live session, and where its resource is dropped it has a row.
pub fn fit_candidates_pass_the_first_tests()
    ensures { (view : View) (b d : Cluster) (before : List Candidate) (x : Candidate) → Shows b view
        → IsWithin view b d before → IsFit d.models view x
        → list_any (is_for x.session x.part) before ≡ false → is_live d.live x.session ≡ true
        → (is_dropped d.resources x.part.resource && is_none (state_of d.rows x.session x.part))
        ≡ false
        → placed_of d (proposal x) ≡ bounded d (proposal x) (limit_at d x.part x.to) }
{}

/// And no part has more ends in a limited state on the board than in the view.
pub fn views_count_no_less_than_the_board()
    ensures { (b : Cluster) (view : View) (p : PartId) (t : StateId) (limit : ℕ) → IsSafe b
        → IsRanged b → Shows b view → limit_at b p t ≡ Some limit
        → count_of b p t ≤ count_over (shown_sessions view) view.rows view.mail p t }
{}

/// Nor does a rule count more messages on the board than in the view.
pub fn views_load_no_less_than_the_board()
    ensures { (b : Cluster) (view : View) (r : Rule) (key : ℕ) → IsSafe b → Shows b view
        → load_of b r key ≤ load_over view.live view.mail r key }
{}

//! What is found of a part depends on what a view shows of it alone. The contract of each function
//! is a law over the definitions.
ghost use Rattle.std.specs.Prelude.{◌≡◌, ℕ, true, List, Bool};
ghost use Rattle.hx_ids.specs.declared.PartId.{PartId};
ghost use Rattle.hx_model.specs.declared.ModelParts.{ModelParts};
ghost use Rattle.hx_cluster.specs.declared.planning.View.{View};
ghost use Rattle.hx_cluster.specs.declared.planning.Candidate.{Candidate};
ghost use Rattle.hx_cluster.specs.declared.happenings.Seen.{Seen};
ghost use Rattle.hx_cluster.specs.Views.{is_well_formed};
ghost use Rattle.hx_parts.specs.Parts.{IsByPart};
ghost use Rattle.hx_pass.specs.Plans.{all_candidates};
ghost use Rattle.hx_pass.specs.Turns.{posted_of};
ghost use Rattle.hx_pass.specs.Waiting.{HasWaiting};
ghost use Rattle.hx_parts.specs.Marks.{IsSpliced};
ghost use Rattle.hx_pass.specs.Local.{DifferWithin, narrowed, accepted_in};
ghost use Rattle.hx_pass.specs.Local.{accepted_within, candidates_within};

/// The accepted candidates of a view, where an earlier one shows the same but for marked parts: the
/// earlier view's of the parts that aren't marked, and of those that are what their rows and
/// messages alone give.
pub fn accepted_candidates_are_found_by_part()
    ensures { (models : List ModelParts) (marked : PartId → Bool) (v w : View)
        → DifferWithin marked v w → (out : List Candidate)
        → IsSpliced (λ c. c.part) marked (accepted_in models v)
        (accepted_within models marked (narrowed marked w)) out → out ≡ accepted_in models w }
{}

/// The candidates that wait in a view, where an earlier one shows the same but for marked parts: the
/// earlier view's of the parts that aren't marked, and of those that are what their rows and
/// messages alone give.
pub fn waiting_candidates_are_found_by_part()
    ensures { (models : List ModelParts) (marked : PartId → Bool) (v w : View)
        → DifferWithin marked v w → (old new out : List Candidate)
        → HasWaiting (all_candidates models v) (accepted_in models v) old
        → HasWaiting (candidates_within models marked (narrowed marked w))
        (accepted_within models marked (narrowed marked w)) new
        → IsSpliced (λ c. c.part) marked old new out
        → HasWaiting (all_candidates models w) (accepted_in models w) out }
{}

/// The rows that a turn posts stand in order of part.
pub fn posted_rows_stand_by_part()
    ensures { (v : View) → IsByPart (λ s. s.part) (posted_of v) }
{}

/// The rows that a turn posts of a view, where an earlier one shows the same but for marked parts:
/// the earlier view's of the parts that aren't marked, and of those that are what their rows alone
/// give.
pub fn posted_rows_are_found_by_part()
    ensures { (marked : PartId → Bool) (v w : View) → DifferWithin marked v w
        → (out : List Seen)
        → IsSpliced (λ s. s.part) marked (posted_of v) (posted_of (narrowed marked w)) out
        → out ≡ posted_of w }
{}

/// Whether a view is well formed, where an earlier one is and shows the same but for marked parts:
/// whether it is with the rows and messages of the marked parts alone.
pub fn views_are_well_formed_by_part()
    ensures { (models : List ModelParts) (instances : ℕ) (marked : PartId → Bool) (v w : View)
        → DifferWithin marked v w
        → is_well_formed models instances v ≡ true
        → is_well_formed models instances w
        ≡ is_well_formed models instances (narrowed marked w) }
{}

//! What controllers are shown and send in lawful histories, and that the board never has to refuse
//! it. The contract of each function is a law over the definitions alone.
#![tactic(auto)]

mod covers;

ghost use Rattle.std.specs.Prelude.{◌≡◌, ◌++◌, ℕ, true, List, map};
ghost use Rattle.std.specs.List.{list_all};
ghost use Rattle.hx_model.specs.declared.ModelParts.{ModelParts};
ghost use Rattle.hx_cluster.specs.declared.description.Rule.{Rule};
ghost use Rattle.hx_cluster.specs.declared.description.Spec.{Spec};
ghost use Rattle.hx_cluster.specs.declared.state.Cluster.{Cluster};
ghost use Rattle.hx_cluster.specs.declared.planning.View.{View};
ghost use Rattle.hx_cluster.specs.declared.planning.Candidate.{Candidate};
ghost use Rattle.hx_cluster.specs.declared.happenings.Event.{Event};
ghost use Rattle.hx_cluster.specs.Steps.{opening};
ghost use Rattle.hx_cluster.specs.Messages.{placed_all, after_proposals};
ghost use Rattle.hx_cluster.specs.Events.{IsLegal};
ghost use Rattle.hx_cluster.specs.Safe.{IsSafe};
ghost use Rattle.hx_cluster.specs.Valid.{IsValid};
ghost use Rattle.hx_cluster.specs.Ranged.{IsRanged};
ghost use Rattle.hx_cluster.specs.Views.{is_well_formed};
ghost use Rattle.hx_pass.specs.Plans.{throttled_of, proposal, plan};
ghost use Rattle.hx_pass.specs.Lawful.{IsLawful};
ghost use Rattle.hx_lawful.specs.Gate.{Shows, IsWithin};
ghost use Rattle.hx_lawful.specs.Fitting.{AreFit};
ghost use Rattle.hx_lawful.specs.Unrefused.{is_sent_or_gone, IsUnrefused};
ghost use Rattle.hx_lawful.specs.Holding.{HoldsOfLegal, HoldsOfLawful};

pub use covers::{
    fit_candidates_pass_the_first_tests, lawful_reads_cover_the_board, lawful_views_show_the_board,
    legal_turns_keep_their_shape, views_count_no_less_than_the_board,
    views_load_no_less_than_the_board, what_was_read_is_well_formed, what_was_shown_is_well_formed,
};

/// What a plan sends fits the view that the plan was made of: each candidate is of a shown session
/// and a part that is there, where no message was shown, and goes on from where its replica was
/// shown, by a transition of the model to another state. No replica has two.
pub fn plans_fit_their_views()
    ensures { (models : List ModelParts) (rules : List Rule) (instances : ℕ) (view : View)
        → is_well_formed models instances view ≡ true
        → AreFit models view (throttled_of models rules view).sent }
{}

/// As a board that a view shows places what the view's plan sends, it changes no more than by what
/// was placed so far.
pub fn plans_stay_within_what_they_sent()
    ensures { (b : Cluster) (view : View) (before after : List Candidate)
        → IsSafe b → IsRanged b → Shows b view
        → (throttled_of b.models b.rules view).sent ≡ before ++ after
        → IsWithin view b (after_proposals b (map proposal before)) before }
{}

/// A board that a well-formed view shows refuses no proposal of the view's plan: each is sent, or
/// its session has ended, or its resource was dropped and its replica is gone.
pub fn shown_boards_refuse_no_plan()
    ensures { (b : Cluster) (instances : ℕ) (view : View) → IsSafe b → IsRanged b → Shows b view
        → is_well_formed b.models instances view ≡ true
        → list_all is_sent_or_gone (placed_all b (plan b.models b.rules view).proposals) ≡ true }
{}

/// So in every lawful history no dispatch is refused a proposal for a pending message, for where
/// its replica stands, for its transition, nor by a bound or a throttle, whatever stands between
/// the reads of a pass and its dispatch. The plans keep the bounds.
pub fn lawful_dispatches_are_never_refused()
    ensures { (spec : Spec) (h : List Event) → IsValid spec → IsLawful spec h → IsUnrefused h }
{}

/// At each place of a legal history the cluster is safe, and each message that was taken so far has
/// one run, legal and alone.
pub fn what_holds_of_legal_histories()
    ensures { (spec : Spec) (h more : List Event) → IsValid spec
        → IsLegal (opening spec) (h ++ more) → HoldsOfLegal spec h }
{}

/// At each place of a lawful one what each controller was shown covers the board too, while its
/// epoch and pass stand, and no dispatch was refused a proposal.
pub fn what_holds_of_lawful_histories()
    ensures { (spec : Spec) (h more : List Event) → IsValid spec → IsLawful spec (h ++ more)
        → HoldsOfLawful spec h }
{}

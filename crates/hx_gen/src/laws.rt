//! Laws of the models of targets, and of candidates. A function says each, and does nothing.
ghost use Rattle.std.specs.Prelude.{◌≡◌, ℕ, List, true};
ghost use Rattle.std.specs.List.{list_all};
ghost use Rattle.hx_model.specs.declared.ModelParts.{ModelParts};
ghost use Rattle.hx_cluster.specs.declared.planning.View.{View};
ghost use Rattle.hx_cluster.specs.Views.{is_well_formed};
ghost use Rattle.hx_cluster.specs.declared.planning.Target.{Target};
ghost use Rattle.hx_parts.specs.Parts.{IsByPart};
ghost use Rattle.hx_best.specs.Targets.{all_targets};
ghost use Rattle.hx_gen.specs.Candidates.{candidates};
ghost use Rattle.hx_gen.specs.Stage.{has_model};
ghost use Rattle.hx_gen.specs.Modelled.{has_models};

/// In a well-formed view each resource has one of the models.
pub fn well_formed_views_have_models()
    ensures { (models : List ModelParts) (instances : ℕ) (view : View)
        → is_well_formed models instances view ≡ true
        → has_models models view ≡ true }
{}

/// Where each resource has one of the models, each target is of a resource that has.
pub fn targets_have_models()
    ensures { (models : List ModelParts) (view : View)
        → has_models models view ≡ true
        → list_all (λ t. has_model models view.ideals.resources t.part.resource)
        (all_targets models view)
        ≡ true }
{}

/// Candidates stand in order of part, so that those of a part stand side by side.
pub fn candidates_stand_by_part()
    ensures { (models : List ModelParts) (view : View) (targets : List Target)
        → IsByPart (λ c. c.part) (candidates models view targets) }
{}

//! How many sessions take room in the states of one part, and not who they are.
ghost use Rattle.std.specs.Prelude.{◌≡◌, [], false, List, Some, IfOk, OnOk};
ghost use Rattle.std.specs.List.{position};
ghost use Rattle.hx_lists.specs.Choices.{with_chosen};
ghost use Rattle.hx_ids.specs.declared.PartId.{PartId};
ghost use Rattle.hx_model.specs.declared.ModelParts.{ModelParts};
ghost use Rattle.hx_cluster.specs.declared.planning.View.{View};
ghost use Rattle.hx_cluster.specs.declared.planning.Candidate.{Candidate};
ghost use Rattle.hx_cluster.specs.Ends.{part_before};
ghost use Rattle.hx_select.specs.Fillings.{limit_in};
ghost use Rattle.hx_select.specs.PartFillings.{ArePartFillings, is_of};
ghost use Rattle.hx_select.specs.Selection.{has_room};

use hx_cluster::Candidate;
use hx_ids::{PartId, ResourceId, StateId};
use hx_model::Model;
use hx_parts::ViewIndex;
use std::alloc::{AllocError, Global};

/// How many have a state among their ends or were accepted for it.
#[derive(Clone, Copy, Drop)]
pub struct Filling {
    pub state: StateId,
    pub count: u32,
}

/// What takes room in the limited states of a part. That of the parts before is forgotten.
#[derive(Drop)]
pub struct PartFillings {
    part: PartId,
    fillings: Vec<Filling>,
}

impl PartFillings {
    /// Nobody was accepted for the first part, nor for a later one.
    pub fn new(alloc: Global) -> PartFillings
        ensures fillings { (models : List ModelParts) (view : View)
            → ArePartFillings models view [] result.part result.fillings.items }
        ensures first { (part : PartId) → part_before part result.part ≡ false }
    {
        PartFillings {
            part: PartId {
                resource: ResourceId(0),
                index: 0,
            },
            fillings: Vec::new(alloc),
        }
    }

    /// Turns to a part that is no earlier one.
    fn turn_to(&mut self, part: PartId)
        requires { part_before part self.old.part ≡ false }
        ensures part { self.new.part ≡ part }
        ensures kept { (models : List ModelParts) (view : View) (accepted : List Candidate)
            → ArePartFillings models view accepted self.old.part self.old.fillings.items
            → ArePartFillings models view accepted self.new.part self.new.fillings.items }
    {
        if self.part != part {
            self.part = part;
            self.fillings.clear();
        }
    }

    /// The place of a state among the fillings. The view is asked for it once.
    fn place_of(&mut self, index: &ViewIndex, state: StateId) -> Result<usize, AllocError>
        ensures part { self.new.part ≡ self.old.part }
        ensures place { IfOk result (λ place.
            position (is_of state) self.new.fillings.items ≡ Some place) }
        ensures kept { (models : List ModelParts) (accepted : List Candidate)
            → ArePartFillings models index.now accepted self.old.part self.old.fillings.items
            → OnOk result (ArePartFillings models index.now accepted self.new.part
            self.new.fillings.items) }
    {
        if let Some(place) = self.known(state) {
            return Ok(place);
        }
        let place = self.fillings.len();
        let count = index.count_of(self.part, state);
        self.fillings.push(Filling { state, count })?;
        Ok(place)
    }

    fn known(&self, state: StateId) -> Option<usize>
        ensures { result ≡ position (is_of state) self.now.fillings.items }
    {
        self.fillings
            .iter()
            .position(|filling| filling.state == state)
    }

    /// Whether fewer than a bound take room in the state of a candidate of the part. Then it does
    /// too.
    fn admits(
        &mut self,
        index: &ViewIndex,
        candidate: &Candidate,
        bound: u32,
    ) -> Result<bool, AllocError>
        requires { candidate.now.part ≡ self.old.part }
        ensures part { self.new.part ≡ self.old.part }
        ensures answer { (models : List ModelParts) (accepted : List Candidate)
            → ArePartFillings models index.now accepted self.old.part self.old.fillings.items
            → limit_in models index.now candidate.now.part candidate.now.to ≡ Some bound
            → IfOk result (λ admits. admits ≡ has_room models index.now accepted candidate.now) }
        ensures kept { (models : List ModelParts) (accepted : List Candidate)
            → ArePartFillings models index.now accepted self.old.part self.old.fillings.items
            → limit_in models index.now candidate.now.part candidate.now.to ≡ Some bound
            → OnOk result (ArePartFillings models index.now
            (with_chosen (has_room models index.now) accepted candidate.now)
            self.new.part self.new.fillings.items) }
    {
        let place = self.place_of(index, candidate.to)?;
        let count = self.fillings[place].count;
        if count < bound {
            self.fillings[place] = Filling {
                state: candidate.to,
                count: count + 1,
            };
            return Ok(true);
        }
        Ok(false)
    }

    /// Whether there is room for a candidate beside those accepted before it. Then it takes some.
    pub fn accepts(
        &mut self,
        models: &[Model],
        index: &ViewIndex,
        candidate: &Candidate,
    ) -> Result<bool, AllocError>
        requires { part_before candidate.now.part self.old.part ≡ false }
        ensures part { self.new.part ≡ candidate.now.part }
        ensures answer { (accepted : List Candidate)
            → ArePartFillings models.now index.now accepted self.old.part self.old.fillings.items
            → IfOk result (λ accepts. accepts
            ≡ has_room models.now index.now accepted candidate.now) }
        ensures kept { (accepted : List Candidate)
            → ArePartFillings models.now index.now accepted self.old.part self.old.fillings.items
            → OnOk result (ArePartFillings models.now index.now
            (with_chosen (has_room models.now index.now) accepted candidate.now)
            self.new.part self.new.fillings.items) }
    {
        self.turn_to(candidate.part);
        match index.limit_of(models, candidate.part, candidate.to) {
            Some(bound) => self.admits(index, candidate, bound),
            None => Ok(true),
        }
    }
}

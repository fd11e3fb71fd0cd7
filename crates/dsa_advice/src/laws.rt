//! Laws of the explanation of a planned list.

ghost use Rattle.std.specs.Prelude.{ℕ, Bool, List, map, Ok};
ghost use Rattle.dsa_descriptor.specs.Descriptors.{fields};
ghost use Rattle.dsa_descriptor.specs.Fields.{Fields};
ghost use Rattle.dsa_ranges.specs.Ranges.{ConflictAt};
ghost use Rattle.dsa_operations.specs.declared.operation.Operation.{Operation};
ghost use Rattle.dsa_operations.specs.Operations.{OperationConflictAt};
ghost use Rattle.dsa_settings.specs.Barriers.{WithBarriers};
ghost use Rattle.dsa_settings.specs.Settings.{Limits};
ghost use Rattle.dsa_calls.specs.Fenced.{PiecesConflict, PlansWith};
ghost use Rattle.dsa_calls.specs.Planned.{Submission, Plans};
ghost use Rattle.dsa_lists.specs.Submissions.{OperationSubmission, PlansEntries};
ghost use Rattle.dsa_advice.specs.Comments.{OneNameEach};
ghost use Rattle.dsa_advice.specs.Laws.{FencesAreNeeded};

/// Each fence of a plan that planning answers separates the fenced piece from an earlier one, and no other fence does:
/// the two conflict, or a barrier is between them. This holds of a list of descriptors, of descriptors with barriers,
/// and of operations, which may be checksums, with barriers.
pub fn planned_fences_are_needed()
    ensures list { (bytes : List ℕ) (s : Limits) (p : Submission) → Plans bytes s (Ok p) →
        FencesAreNeeded (ConflictAt (map fields p.pieces)) p.plan }
    ensures descriptors { (barriers : List Bool) (s : Limits) (fs : List Fields)
        (p : Submission) → PlansWith barriers s fs (Ok p) →
        FencesAreNeeded (PiecesConflict s fs barriers (map fields p.pieces)) p.plan }
    ensures operations { (barriers : List Bool) (s : Limits) (os : List Operation)
        (p : OperationSubmission) → PlansEntries s os barriers (Ok p) →
        FencesAreNeeded (WithBarriers (OperationConflictAt os) barriers) p.plan }
{}

/// A text that spells operations has a name for each, which may be empty.
#[tactic(auto, using(crate::proofs::Named::one_name_each))]
pub fn one_name_each()
    ensures { OneNameEach }
{}

//! Laws of prepared submissions. Each function is a law: its body is empty, and its clause is what the proof shows.

ghost use Rattle.dsa_prepared.specs.Laws.{FilledIsEmission, AlignedBasesAlign, FilledIsPlanned, FilledAnyIsPlanned, PreparedWithoutFences};

/// A filled template has the bytes that submit the same plan of the relocated pieces.
pub fn filled_is_emission()
    ensures { FilledIsEmission }
{}

/// Bases that keep the units and the ties keep each operation aligned.
pub fn aligned_bases_align()
    ensures { AlignedBasesAlign }
{}

/// What is filled of a prepared list is what planning it on the new buffers answers, with its fences as barriers.
pub fn filled_is_planned()
    ensures { FilledIsPlanned }
{}

/// The same of a list that may have checksums.
pub fn filled_any_is_planned()
    ensures { FilledAnyIsPlanned }
{}

/// A list without fences is prepared of the operations that it spells and of the plan that
/// [`plan_list`](dsa_calls::plan_list()) returns.
pub fn prepared_without_fences()
    ensures { PreparedWithoutFences }
{}

//! Laws of marks, and of lists without fences or checksums.

ghost use Rattle.dsa_c.specs.Explaining.{DescriptorsSayAlike, ReasonsSayAsExplained};
ghost use Rattle.dsa_c.specs.Laws.{CheckedAsDescriptors, CheckedWithoutChecksums, JudgedWithoutFences, MarksSpellPlans, PlannedWithoutFences, PlansSpellMarks, ResumedWithoutChecksums};

/// A plan whose groups are not empty is the plan that its marks spell, and it has as many marks as pieces. This is a
/// law: the body is empty, and the clause is what the proof shows.
pub fn marks_spell_plans()
    ensures { MarksSpellPlans }
{}

/// Marks of two bits whose first mark begins a group are the marks of the plan that they spell: so each plan has one
/// such list of marks. This is a law too.
pub fn plans_spell_marks()
    ensures { PlansSpellMarks }
{}

/// A list of descriptors without the flag 0x0001, fence, is planned as [`plan_list`](dsa_calls::plan_list()) plans it,
/// at the cost that no legal plan of its pieces undercuts. This is a law too.
pub fn planned_without_fences()
    ensures { PlannedWithoutFences }
{}

/// Such a list is judged as [`judge_bytes`](dsa_calls::judge_bytes()) judges it. This is a law too.
pub fn judged_without_fences()
    ensures { JudgedWithoutFences }
{}

/// What [`check_bytes`](dsa_calls::check_bytes()) accepts, [`dsa_check`](crate::dsa_check()) accepts too, at the same
/// cost; and if bytes submit descriptors, the other way. This is a law too.
pub fn checked_without_checksums()
    ensures there { CheckedWithoutChecksums }
    ensures back { CheckedAsDescriptors }
{}

/// What is left of a list of descriptors is what [`resume_list`](dsa_resume::resume_list()) answers, and is written as
/// a list of descriptors, with what is left out. This is a law too.
pub fn resumed_without_checksums()
    ensures { ResumedWithoutChecksums }
{}

/// The sentence that [`dsa_reason_text`](crate::dsa_reason_text()) writes of a reason of
/// [`dsa_explain_list`](crate::dsa_explain_list()) is the one that an explanation has for that fence, of descriptors as
/// of operations. This is a law too.
pub fn reasons_say_as_explained()
    ensures operations { ReasonsSayAsExplained }
    ensures descriptors { DescriptorsSayAlike }
{}

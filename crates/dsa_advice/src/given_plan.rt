//! `explain` of a given plan.

ghost use Rattle.std.specs.Prelude.{◌≡◌, ◌⊎◌, [], IfOk, List, Some, Err, map, string_bytes, ℕ};
ghost use Rattle.dsa_descriptor.specs.Descriptors.{fields};
ghost use Rattle.dsa_calls.specs.declared.fault.PlanFault.{PlanFault};
ghost use Rattle.dsa_calls.specs.declared.fault.PlanFault.TheVariants.{Memory};
ghost use Rattle.dsa_calls.specs.Judge.{Judges, JudgesPieces};
ghost use Rattle.dsa_calls.specs.Lists.{IsListOf};
ghost use Rattle.dsa_explain.specs.Explained.{CanBeExplained};
ghost use Rattle.dsa_operations.specs.declared.operation.Operation.TheVariants as operation;
ghost use Rattle.dsa_advice.specs.Explained.{AnswersJudged, AnswersWithLeast, ExplainsJudged, IsLeastCost, IsNamedLeast, TellsWithLeast, least_words, more_words};
ghost use Rattle.dsa_advice.specs.Refusals.{IsRefusal};
ghost use Rattle.dsa_advice.specs.Shown.{CanBeShown};

use crate::answer::Answer;
use crate::explaining::operation_notes;
use crate::form::Form;
use crate::shown::{Subject, answer_plan, plain, plan_words};
use crate::unfenced::missing_message;
use dsa_calls::{PlanFault, judge_pieces, plan_operations};
use dsa_descriptor::{Descriptor, DescriptorList, read_list};
use dsa_explain::Detail;
use dsa_lists::operations_of;
use dsa_plan::{LegalFault, Plan, Settings};
use std::alloc::{AllocError, Global};

/// What a least plan of the pieces costs, if one can be made: the planner needs a staging area of its own, which
/// settings may not have.
fn least_cost(
    alloc: Global,
    list: &DescriptorList,
    settings: &Settings,
) -> Result<Option<u64>, AllocError>
    requires { list.now.barriers.items ≡ [] }
    ensures { IfOk result (IsLeastCost settings.now (map fields list.now.descriptors.items)) }
{
    match plan_operations(alloc, list, settings) {
        Ok(planned) => Ok(Some(planned.cost)),
        Err(fault) if fault == PlanFault::Memory => Err(AllocError),
        Err(_) => Ok(None),
    }
}

/// How much more a plan costs than a least plan.
fn more_text(alloc: Global, more: u64) -> Result<String, AllocError>
    ensures { IfOk result (λ s. string_bytes s ≡ more_words more) }
{
    if more == 0 {
        return String::from_str(alloc, "no plan costs less\n");
    }
    format!(in alloc; "this plan costs {more} more\n")
}

/// The line that names the least cost, and how much more the plan costs.
fn least_line(alloc: Global, cost: u64, least: u64) -> Result<String, AllocError>
    ensures { IfOk result (λ s. string_bytes s ≡ least_words cost (Some least)) }
{
    let mut line = format!(in alloc; "least {least}: ")?;
    line.push_str(&more_text(alloc, cost.saturating_sub(least))?)?;
    Ok(line)
}

/// The line that names the least cost; empty if there is none.
fn least_text(alloc: Global, cost: u64, least: Option<u64>) -> Result<String, AllocError>
    ensures { IfOk result (λ s. string_bytes s ≡ least_words cost least) }
{
    match least {
        Some(least) => least_line(alloc, cost, least),
        None => Ok(String::new(alloc)),
    }
}

/// What a least plan costs, as far as the form names it: none beside what groups wait for.
fn named_least(
    alloc: Global,
    list: &DescriptorList,
    settings: &Settings,
    form: Form,
) -> Result<Option<u64>, AllocError>
    requires { list.now.barriers.items ≡ [] }
    ensures { IfOk result
        (IsNamedLeast settings.now (map fields list.now.descriptors.items) form) }
{
    match form {
        Form::Words(_) | Form::Picture(_) | Form::Json => least_cost(alloc, list, settings),
        Form::Waits => Ok(None),
    }
}

/// A plan in words, and after them what a least plan costs, if that is known.
fn words_with_least(
    alloc: Global,
    subject: &Subject<'_>,
    settings: &Settings,
    cost: u64,
    detail: Detail,
) -> Result<Answer, AllocError>
    requires { CanBeShown settings.now subject.now }
    ensures { IfOk result (TellsWithLeast settings.now detail subject.now cost) }
{
    let mut text = plan_words(alloc, subject, settings, detail)?;
    text.push_str(&least_text(alloc, cost, subject.least)?)?;
    Ok(Answer::done(text))
}

/// A plan in a form, with what a least plan costs, if that is known.
fn answer_with_least(
    alloc: Global,
    subject: &Subject<'_>,
    settings: &Settings,
    cost: u64,
    form: Form,
) -> Result<Answer, AllocError>
    requires { CanBeShown settings.now subject.now }
    ensures { IfOk result (AnswersWithLeast settings.now subject.now cost form) }
{
    match form {
        Form::Words(detail) => words_with_least(alloc, subject, settings, cost, detail),
        Form::Picture(_) | Form::Json | Form::Waits => answer_plan(alloc, subject, settings, form),
    }
}

/// The answer for a judged plan, with the notes and warnings about its pieces.
fn answer_judged(
    alloc: Global,
    plan: &Plan,
    list: &DescriptorList,
    settings: &Settings,
    cost: u64,
    form: Form,
) -> Result<Answer, AllocError>
    requires can { CanBeExplained settings.now
        (map operation.Descriptor list.now.descriptors.items) [] plan.now }
    requires plain { list.now.barriers.items ≡ [] }
    ensures { IfOk result
        (AnswersJudged settings.now plan.now list.now.descriptors.items cost form) }
{
    let pieces = operations_of(alloc, &list.descriptors)?;
    let least = named_least(alloc, list, settings, form)?;
    let subject = plain(plan, &pieces, least);
    let answer = answer_with_least(alloc, &subject, settings, cost, form)?;
    Ok(answer.with_warnings(operation_notes(alloc, &pieces, settings)?))
}

/// The refusal of a given plan. If the plan lacks fences, the refusal lists each of them.
fn refuse_judged(
    alloc: Global,
    pieces: &[Descriptor],
    plan: &Plan,
    fault: PlanFault,
) -> Result<Answer, AllocError>
    ensures { IfOk result (IsRefusal fault) }
{
    if is_unfenced(fault) {
        Ok(Answer::refused(missing_message(alloc, fault, plan, pieces)?))
    } else {
        Answer::fault(alloc, fault)
    }
}

/// Whether a plan is refused for a fence that is missing.
fn is_unfenced(fault: PlanFault) -> bool {
    matches!(fault, PlanFault::Legal(LegalFault::Unfenced(_, _)))
}

/// What a plan of these pieces does and why, if it may be submitted, and what a least plan costs.
fn explain_pieces(
    alloc: Global,
    list: &DescriptorList,
    plan: &Plan,
    settings: &Settings,
    form: Form,
) -> Result<Answer, AllocError>
    requires { list.now.barriers.items ≡ [] }
    ensures answer { (bytes : List ℕ) → IsListOf bytes list.now.descriptors.items →
        IfOk result (ExplainsJudged bytes plan.now settings.now form) }
    ensures refused { (fault : PlanFault) →
        JudgesPieces (map fields list.now.descriptors.items) plan.now settings.now (Err fault) →
        IfOk result (IsRefusal fault) }
{
    match judge_pieces(&list.descriptors, &[], plan, settings) {
        Ok(cost) => answer_judged(alloc, plan, list, settings, cost, form),
        Err(fault) => refuse_judged(alloc, &list.descriptors, plan, fault),
    }
}

/// What a plan of listed pieces does and why, if it may be submitted, and what a least plan costs. The refusal of a
/// plan that lacks fences lists each of them.
pub fn explain_judged(
    alloc: Global,
    list: &[u8],
    plan: &Plan,
    settings: &Settings,
    form: Form,
) -> Result<Answer, AllocError>
    ensures answer { IfOk result (ExplainsJudged list.now plan.now settings.now form) }
    // What `judge` refuses is refused for the same cause, unless an allocation failed.
    ensures refused { (fault : PlanFault) →
        Judges list.now plan.now settings.now (Err fault) →
        IfOk result (λ a. IsRefusal Memory a ⊎ IsRefusal fault a) }
{
    match read_list(alloc, list) {
        Ok(pieces) => {
            let plain = DescriptorList::without_barriers(alloc, pieces);
            explain_pieces(alloc, &plain, plan, settings, form)
        }
        Err(fault) => Answer::fault(alloc, PlanFault::from(fault)),
    }
}

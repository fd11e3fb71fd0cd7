//! A plan of pieces, explained in words, as a picture or as JSON.

ghost use Rattle.std.specs.Prelude.{◌≡◌, [], IfOk, string_bytes};
ghost use Rattle.dsa_advice.specs.declared.form.Form.TheVariants.{Picture, Waits};
ghost use Rattle.dsa_explain.specs.Runs.{labelling};
ghost use Rattle.dsa_advice.specs.Shown.{AnswersSubject, CanBeShown, SpellsPlan, TellsPlan, drawn_groups, too_many_groups, unlabelled, untracked};

use crate::answer::Answer;
use crate::form::Form;
use dsa_explain::{
    Buffer, Detail, Labels, MOST_ROWS, Origin, PieceRange, View, WaitsFault, draw, explain_legal,
    explanation_line, explanation_text, group_waits, waits_text,
};
use dsa_operations::Operation;
use dsa_plan::{Group, Plan, Settings};
use dsa_sentences::TextCause;
use dsa_tracker::TrackFault;
use std::alloc::{AllocError, Global};

/// What is shown: a plan of pieces and their barriers, the operation that each piece is of, the names of
/// operations and buffers, and what a least plan costs, if that is known.
#[derive(Clone, Copy)]
pub(crate) struct Subject<'a> {
    pub(crate) plan: &'a Plan,
    pub(crate) pieces: &'a [Operation],
    pub(crate) barriers: &'a [bool],
    pub(crate) labels: Labels<'a>,
    pub(crate) buffers: &'a [Buffer],
    pub(crate) least: Option<u64>,
}

/// A plan of pieces without barriers, whose operations are not known.
pub(crate) fn plain<'a>(plan: &'a Plan, pieces: &'a [Operation], least: Option<u64>) -> Subject<'a>
    ensures plan { result.plan.now ≡ plan.now }
    ensures pieces { result.pieces.now ≡ pieces.now }
    ensures barriers { result.barriers.now ≡ [] }
    ensures labels { labelling result.labels ≡ unlabelled }
    ensures least { result.least ≡ least }
{
    let origins: &[Origin] = &[];
    let names: &[String] = &[];
    let buffers: &[Buffer] = &[];
    let labels = Labels { origins, names };
    Subject {
        plan,
        pieces,
        barriers: [].as_slice(),
        labels,
        buffers,
        least,
    }
}

/// What a plan of pieces does and why, in words.
pub(crate) fn plan_words(
    alloc: Global,
    subject: &Subject<'_>,
    settings: &Settings,
    detail: Detail,
) -> Result<String, AllocError>
    requires { CanBeShown settings.now subject.now }
    ensures { IfOk result
        (λ s. TellsPlan settings.now detail subject.now.plan.now subject.now.pieces.now
        subject.now.barriers.now (labelling subject.now.labels) (string_bytes s)) }
{
    let Subject {
        plan,
        pieces,
        barriers,
        ..
    } = *subject;
    let explanation = explain_legal(alloc, plan, pieces, barriers, settings, detail)?;
    let text = explanation_text(
        alloc,
        &explanation,
        pieces,
        &subject.labels,
        settings,
        detail,
    )?;
    Ok(text)
}

/// What a plan of pieces does and why, as JSON.
fn plan_line(
    alloc: Global,
    subject: &Subject<'_>,
    settings: &Settings,
) -> Result<String, AllocError>
    requires { CanBeShown settings.now subject.now }
    ensures { IfOk result
        (λ s. SpellsPlan settings.now subject.now.plan.now subject.now.pieces.now
        subject.now.barriers.now (labelling subject.now.labels) subject.now.least
        (string_bytes s)) }
{
    let Subject {
        plan,
        pieces,
        barriers,
        least,
        ..
    } = *subject;
    let explanation = explain_legal(alloc, plan, pieces, barriers, settings, Detail::All)?;
    let line = explanation_line(alloc, &explanation, pieces, &subject.labels, least)?;
    Ok(line)
}

/// How many groups have a piece in the range.
fn drawn_groups(groups: &[Group], range: PieceRange) -> usize
    ensures { result ≡ drawn_groups range.first range.last groups.now }
{
    let PieceRange {
        mut first,
        mut last,
    } = range;
    let mut drawn = 0;
    let mut rest = groups;
    while let [group, after @ ..] = rest {
        let size = group.len() as u64;
        if last < size {
            return drawn + usize::from(first <= last);
        }
        drawn += usize::from(first < size);
        first = first.saturating_sub(size);
        last -= size;
        rest = after;
    }
    drawn
}

/// The refusal of a plan of which too many groups are to be drawn.
fn too_many_groups(alloc: Global, groups: usize) -> Result<Answer, AllocError>
    ensures status { IfOk result (λ a. a.status ≡ 1) }
    ensures text { IfOk result (λ a. string_bytes a.text ≡ too_many_groups groups) }
{
    let mut text = format!(in alloc;
        "error: {groups} groups, a picture has 1024 at most (--from N --to M draws some)"
    )?;
    text.push_str(TextCause::Picture.ending())?;
    Ok(Answer::refused(text))
}

/// The answer for a plan of pieces as a picture.
fn answer_picture(
    alloc: Global,
    subject: &Subject<'_>,
    settings: &Settings,
    range: PieceRange,
) -> Result<Answer, AllocError>
    requires { CanBeShown settings.now subject.now }
    ensures { IfOk result (AnswersSubject settings.now subject.now (Picture range)) }
{
    let Subject {
        plan,
        pieces,
        barriers,
        buffers,
        least,
        ..
    } = *subject;
    let explanation = explain_legal(alloc, plan, pieces, barriers, settings, Detail::First)?;
    let groups = drawn_groups(plan.groups(), range);
    if groups > MOST_ROWS {
        return too_many_groups(alloc, groups);
    }
    let picture = draw(
        alloc,
        &explanation,
        pieces,
        &subject.labels,
        View { buffers, range },
        settings,
        least,
    )?;
    Ok(Answer::done(picture))
}

/// The refusal of groups that a tracker refuses.
fn untracked(alloc: Global, fault: TrackFault) -> Result<Answer, AllocError>
    ensures status { IfOk result (λ a. a.status ≡ 1) }
    ensures text { IfOk result (λ a. string_bytes a.text ≡ untracked fault) }
{
    let (number, name) = (fault.number(), fault.name());
    let mut text = String::from_str(alloc, "error: a tracker with 64 slots refuses the groups")?;
    let cause = format!(in alloc; " [{number} {name}]\n")?;
    text.push_str(&cause)?;
    Ok(Answer::refused(text))
}

/// The answer for a plan of pieces by what its groups wait for.
fn answer_waits(
    alloc: Global,
    subject: &Subject<'_>,
    settings: &Settings,
) -> Result<Answer, AllocError>
    requires { CanBeShown settings.now subject.now }
    ensures { IfOk result (AnswersSubject settings.now subject.now Waits) }
{
    let Subject { plan, pieces, .. } = *subject;
    match group_waits(alloc, plan, pieces, settings.staging()) {
        Ok(waits) => Ok(Answer::done(waits_text(alloc, &waits)?)),
        Err(WaitsFault::Track(fault)) => untracked(alloc, fault),
        Err(WaitsFault::Memory) => Err(AllocError),
    }
}

/// The answer for a plan of pieces in a form. Who calls it has planned or judged the plan.
pub(crate) fn answer_plan(
    alloc: Global,
    subject: &Subject<'_>,
    settings: &Settings,
    form: Form,
) -> Result<Answer, AllocError>
    requires { CanBeShown settings.now subject.now }
    ensures { IfOk result (AnswersSubject settings.now subject.now form) }
{
    match form {
        Form::Words(detail) => Ok(Answer::done(plan_words(alloc, subject, settings, detail)?)),
        Form::Picture(range) => answer_picture(alloc, subject, settings, range),
        Form::Json => Ok(Answer::done(plan_line(alloc, subject, settings)?)),
        Form::Waits => answer_waits(alloc, subject, settings),
    }
}

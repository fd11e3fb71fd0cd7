//! The members of a job, which its row lists.

ghost use Rattle.std.specs.Prelude.{Some};
ghost use Rattle.serde_json.specs.Data.{Data};
ghost use Rattle.dsa_report.specs.Fields.{IsObject};
ghost use Rattle.dsa_report.specs.Job.{HasName};
ghost use Rattle.dsa_report.specs.Read.{ReadsMembers};

use crate::fields::Slots;
use crate::image::ImageMembers;
use crate::jobs::JobName;
use crate::settings::Numbers;
use dsa_core::Event;
use dsa_plan::{Certificate, Plan};
use dsa_tokens::Slot;

/// The members of a job, before the limits of the settings, the byte fields, the kinds of the certificate and the
/// trace, and the size of the image are looked at. Each job has settings; of the other members it has those that its
/// row lists.
#[derive(Drop)]
pub(crate) struct Members<'t> {
    pub(crate) settings: Numbers,
    pub(crate) certificate: Slot<Certificate>,
    pub(crate) engines: Option<u64>,
    pub(crate) image: Option<ImageMembers<'t>>,
    pub(crate) list: Option<&'t str>,
    pub(crate) plan: Option<Plan>,
    pub(crate) portal: Option<&'t str>,
    pub(crate) staging: Option<&'t str>,
    pub(crate) trace: Slot<Vec<Event>>,
}

/// The members of a job of this name, or none if the object spells no such job.
pub(crate) fn members_of(slots: Slots<'_>, name: JobName) -> Option<Members<'_>>
    ensures { (d : Data) → IsObject d (Some slots.entry) → HasName d name
        → ReadsMembers d name result }
{
    if slots.has_others {
        return None;
    }
    if slots.there() != name.listed() {
        return None;
    }
    let Slots {
        certificate,
        engines,
        image,
        list,
        plan,
        portal,
        settings,
        staging,
        trace,
        ..
    } = slots;
    Some(Members {
        settings: settings.into_option()?,
        certificate,
        engines: engines.into_held()?,
        image: image.into_held()?,
        list: list.into_held()?,
        plan: plan.into_held()?,
        portal: portal.into_held()?,
        staging: staging.into_held()?,
        trace,
    })
}

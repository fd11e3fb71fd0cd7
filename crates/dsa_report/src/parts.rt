//! The parts of a job: what its members hold, after all that has refusals of its own was looked at.

ghost use Rattle.std.specs.Prelude.{Some};
ghost use Rattle.serde_json.specs.Data.{Data};
ghost use Rattle.dsa_report.specs.Fields.{IsObject};
ghost use Rattle.dsa_report.specs.Job.{HasName};
ghost use Rattle.dsa_report.specs.Read.{HasParts, ReadsJob};

use crate::bytes::bytes_if;
use crate::fields::Slots;
use crate::image::image_if;
use crate::jobs::JobName;
use crate::members::members_of;
use crate::settings::settings_of;
use dsa_calls::PlanFault;
use dsa_core::Event;
use dsa_image::Image;
use dsa_plan::{Certificate, Plan, Settings};
use std::alloc::Global;

/// The parts of a job: its settings, in their limits, and of the others those that its row lists.
#[derive(Drop)]
pub(crate) struct Parts {
    pub(crate) settings: Settings,
    pub(crate) certificate: Option<Certificate>,
    pub(crate) engines: Option<u64>,
    pub(crate) image: Option<Image>,
    pub(crate) list: Option<Vec<u8>>,
    pub(crate) plan: Option<Plan>,
    pub(crate) portal: Option<Vec<u8>>,
    pub(crate) staging: Option<Vec<u8>>,
    pub(crate) trace: Option<Vec<Event>>,
}

/// The parts of a job of this name, or the first cause to refuse the object. The object has this name.
pub(crate) fn parts_of(alloc: Global, slots: Slots<'_>, name: JobName) -> Result<Parts, PlanFault>
    ensures { (d : Data) → IsObject d (Some slots.entry) → HasName d name
        → ReadsJob (HasParts name) d result }
{
    let Some(members) = members_of(slots, name) else {
        return Err(PlanFault::Member);
    };
    let Some(trace) = members.trace.into_held() else {
        return Err(PlanFault::Member);
    };
    let settings = settings_of(&members.settings)?;
    let list = bytes_if(alloc, members.list)?;
    let portal = bytes_if(alloc, members.portal)?;
    let staging = bytes_if(alloc, members.staging)?;
    let image = image_if(alloc, members.image)?;
    let Some(certificate) = members.certificate.into_held() else {
        return Err(PlanFault::Shape);
    };
    Ok(Parts {
        settings,
        certificate,
        engines: members.engines,
        image,
        list,
        plan: members.plan,
        portal,
        staging,
        trace,
    })
}

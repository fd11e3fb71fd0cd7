//! The object of a job, member by member.

ghost use Rattle.std.specs.Prelude.{◌≡◌};
ghost use Rattle.dsa_report.specs.Fields.{AreSlots, IsObject, there_in};

use crate::image::{ImageMembers, ImageObject};
use crate::plan::PlanGroups;
use crate::settings::{Numbers, SettingsNumbers};
use crate::trace::TraceEvents;
use dsa_cert::{Certificate, Document};
use dsa_core::Event;
use dsa_plan::Plan;
use dsa_tokens::{Fields, Kind, Slot, Text, Unread, Whole, object_into, pass_member, read_into};
use json::{Reader, Token};
use std::alloc::Global;

/// The members that jobs have, as far as they are read of an object.
#[derive(Drop)]
pub(crate) struct Slots<'t> {
    pub(crate) certificate: Slot<Certificate>,
    pub(crate) name: Slot<&'t str>,
    pub(crate) engines: Slot<u64>,
    pub(crate) image: Slot<ImageMembers<'t>>,
    pub(crate) list: Slot<&'t str>,
    pub(crate) plan: Slot<Plan>,
    pub(crate) portal: Slot<&'t str>,
    pub(crate) settings: Slot<Numbers>,
    pub(crate) staging: Slot<&'t str>,
    pub(crate) trace: Slot<Vec<Event>>,
    /// Whether the object has a member that no job has.
    pub(crate) has_others: bool,
}

impl<'t> Slots<'t> {
    /// Whether there is a value for each member that a job may have, in the order of their names.
    pub(crate) fn there(&self) -> [bool; 10]
        ensures { result ≡ there_in self.now }
    {
        [
            self.certificate.is_there(),
            self.name.is_there(),
            self.engines.is_there(),
            self.image.is_there(),
            self.list.is_there(),
            self.plan.is_there(),
            self.portal.is_there(),
            self.settings.is_there(),
            self.staging.is_there(),
            self.trace.is_there(),
        ]
    }
}

impl<'t> Fields<'t> for Slots<'t> {
    ghost hold = { AreSlots };

    fn take(
        &mut self,
        alloc: Global,
        key: &str,
        reader: &mut Reader<'t>,
        depth: usize,
    ) -> Result<(), Unread> {
        match key {
            "certificate" => read_into::<Document>(&mut self.certificate, alloc, reader, depth),
            "do" => read_into::<Text>(&mut self.name, alloc, reader, depth),
            "engines" => read_into::<Whole>(&mut self.engines, alloc, reader, depth),
            "image" => read_into::<ImageObject>(&mut self.image, alloc, reader, depth),
            "list" => read_into::<Text>(&mut self.list, alloc, reader, depth),
            "plan" => read_into::<PlanGroups>(&mut self.plan, alloc, reader, depth),
            "portal" => read_into::<Text>(&mut self.portal, alloc, reader, depth),
            "settings" => read_into::<SettingsNumbers>(&mut self.settings, alloc, reader, depth),
            "staging" => read_into::<Text>(&mut self.staging, alloc, reader, depth),
            "trace" => read_into::<TraceEvents>(&mut self.trace, alloc, reader, depth),
            _ => pass_member(&mut self.has_others, reader, depth),
        }
    }
}

/// Objects with the members of a job, or others.
pub(crate) struct JobObject;

impl<'t> Kind<'t> for JobObject {
    type Found = Slots<'t>;

    ghost says = { IsObject };

    fn read(
        alloc: Global,
        first: Token<'t>,
        reader: &mut Reader<'t>,
        depth: usize,
    ) -> Result<Option<Slots<'t>>, Unread> {
        let mut slots = Slots {
            certificate: Slot::Missing,
            name: Slot::Missing,
            engines: Slot::Missing,
            image: Slot::Missing,
            list: Slot::Missing,
            plan: Slot::Missing,
            portal: Slot::Missing,
            settings: Slot::Missing,
            staging: Slot::Missing,
            trace: Slot::Missing,
            has_others: false,
        };
        if !object_into(alloc, &mut slots, first, reader, depth)? {
            return Ok(None);
        }
        Ok(Some(slots))
    }
}

//! The answer to what was written to a portal, with dumps of memory.

ghost use Rattle.std.specs.Prelude.{◌≢◌, IfOk};
ghost use Rattle.dsa_recording.specs.declared.dumps.StagingFault.TheVariants.{Memory};
ghost use Rattle.dsa_recording.specs.Dumps.{AnswersPortal, AnswersStaged};

use crate::answer::{AuditAnswer, AuditOptions, audit_bytes};
use crate::dumps::{Dump, LONGEST_STREAM, StagingFault, stage};
use crate::entry::Header;
use crate::input::bytes_of_text_input;
use dsa_descriptor::u64_at;
use dsa_forms::is_text;
use dsa_settings::Settings;
use std::alloc::{AllocError, Global};

/// Why a portal and dumps make no recording.
fn staging_text(alloc: Global, portal: &[u8], fault: StagingFault) -> Result<String, AllocError>
    ensures { IfOk result (λ _. fault ≢ Memory) }
{
    let (all, rest) = portal.as_chunks::<64>();
    match fault {
        StagingFault::Length => {
            let (entry, count) = (all.len(), rest.len());
            format!(in alloc;
                "entry {entry}: error: the portal ends after {count} of its 64 bytes\n"
            )
        }
        StagingFault::Unstaged(at) => {
            let (size, address) = match all.get(at) {
                Some(entry) => (Header::of(entry).size, u64_at(entry, 16)),
                None => (0, 0),
            };
            format!(in alloc;
                "entry {at}: error: no dump has the {size} members of this batch, at 0x{address:x}\n"
            )
        }
        StagingFault::TooLong(at) => format!(in alloc;
            "entry {at}: error: with it the recording has more than {LONGEST_STREAM} bytes\n"
        ),
        StagingFault::Memory => Err(AllocError),
    }
}

/// The report on the entries of a portal, with their members.
fn audit_portal(
    alloc: Global,
    portal: &[u8],
    dumps: &[Dump],
    settings: &Settings,
    options: AuditOptions<'_>,
) -> Result<AuditAnswer, AllocError>
    ensures { IfOk result (AnswersPortal options.entry dumps.now portal.now) }
{
    match stage(alloc, portal, dumps) {
        Ok(stream) => audit_bytes(alloc, &stream, settings, options),
        Err(fault) => {
            let reason = staging_text(alloc, portal, fault)?;
            Ok(AuditAnswer::refused(alloc, reason))
        }
    }
}

/// The report on what was written to a portal, in any form that [`audit`](crate::audit) reads: its entries, with the members
/// of each batch from the first dump that has all of them at the batch's list address. The status is that of
/// [`audit`](crate::audit), and 2 where some batch has no such dump.
pub fn audit_staged(
    alloc: Global,
    input: &[u8],
    dumps: &[Dump],
    settings: &Settings,
    options: AuditOptions<'_>,
) -> Result<AuditAnswer, AllocError>
    ensures { IfOk result (AnswersStaged options.entry dumps.now input.now) }
{
    if !is_text(input) {
        return audit_portal(alloc, input, dumps, settings, options);
    }
    match bytes_of_text_input(alloc, input)? {
        Ok(portal) => audit_portal(alloc, &portal, dumps, settings, options),
        Err(refusal) => Ok(refusal),
    }
}

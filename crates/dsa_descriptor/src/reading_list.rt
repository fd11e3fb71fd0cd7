//! Reading a list of descriptors in which a fence is a barrier.

ghost use Rattle.std.specs.Prelude.{◌≡◌, ◌≢◌, List, map, IfOk, IfErr, Err, MatchResult};
ghost use Rattle.dsa_descriptor.specs.declared.descriptor.Descriptor.{Descriptor};
ghost use Rattle.dsa_descriptor.specs.declared.fault.ListFault.{ListFault};
ghost use Rattle.dsa_descriptor.specs.declared.fault.ListFault.TheVariants.{Memory};
ghost use Rattle.dsa_descriptor.specs.Descriptors.{fields};
ghost use Rattle.dsa_descriptor.specs.Fences.{barriers_of, unfenced_list};
ghost use Rattle.dsa_descriptor.specs.Lists.{list_spelling, HaveOneOwner, IsFirstListFault};

use crate::descriptor::Descriptor;
use crate::fault::ListFault;
use crate::operations::DescriptorList;
use crate::reading_entries::read_entries;
use std::alloc::Global;

/// The descriptors that the bytes spell, fenced or not, and their barriers: the flag 0x0001, fence, of an entry is a
/// barrier before its operation. A fence on the first entry says nothing.
///
/// # Errors
/// The first fault of the bytes without their fences as a list, as [`read_list`](crate::read_list) reports it.
pub fn read_descriptor_list(alloc: Global, bytes: &[u8]) -> Result<DescriptorList, ListFault>
    ensures found { IfOk result (λ list.
        (unfenced_list bytes.now ≡ list_spelling (map fields list.descriptors.items)) ×
        HaveOneOwner (map fields list.descriptors.items)) }
    ensures barriers { IfOk result (λ list. list.barriers.items ≡ barriers_of bytes.now) }
    ensures only { (ds : List Descriptor) →
        unfenced_list bytes.now ≡ list_spelling (map fields ds) → HaveOneOwner (map fields ds) →
        MatchResult result (λ list. list.descriptors.items ≡ ds) (λ fault. fault ≡ Memory) }
    ensures fault { IfErr result (IsFirstListFault (unfenced_list bytes.now)) }
    ensures refused { (fault : ListFault) →
        fault ≢ Memory → IsFirstListFault (unfenced_list bytes.now) fault → result ≡ Err fault }
{
    match read_entries::<Descriptor>(alloc, bytes) {
        Ok(list) => Ok(DescriptorList {
            descriptors: list.entries,
            barriers: list.barriers,
        }),
        Err(fault) => Err(fault),
    }
}

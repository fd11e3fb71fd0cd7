//! Descriptors of one owner, with their barriers.

ghost use Rattle.std.specs.Prelude.{◌≡◌, ◌≢◌, [], length, map};
ghost use Rattle.dsa_descriptor.specs.Descriptors.{fields};
ghost use Rattle.dsa_descriptor.specs.Lists.{HaveOneOwner};

use crate::descriptor::Descriptor;
use std::alloc::Global;

/// Operations or pieces in their order, and their barriers. The ghost fields say that all have one PASID and one
/// privilege, and that there is a mark for each descriptor or for none.
#[derive(Drop)]
pub struct DescriptorList {
    /// The operations or pieces.
    pub descriptors: Vec<Descriptor>,
    /// Whether each begins after a barrier: no descriptor before a barrier may run while one after it does. Empty if
    /// there is no barrier.
    pub barriers: Vec<bool>,
    pub ghost one_owner: { HaveOneOwner (map fields descriptors.items) },
    pub ghost marked: { barriers.items ≢ [] → length barriers.items ≡ length descriptors.items },
}

impl DescriptorList {
    /// Descriptors of one owner without barriers.
    pub fn without_barriers(alloc: Global, descriptors: Vec<Descriptor>) -> DescriptorList
        requires { HaveOneOwner (map fields descriptors.items) }
        ensures same { result.descriptors.items ≡ descriptors.items }
        ensures none { result.barriers.items ≡ [] }
    {
        DescriptorList {
            descriptors,
            barriers: Vec::new(alloc),
        }
    }
}

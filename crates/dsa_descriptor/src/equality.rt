//! Whether two descriptors are equal.

ghost use Rattle.std.specs.Prelude.{◌≡◌, ◌↔◌, IsTrue};
ghost use Rattle.dsa_descriptor.specs.Descriptors.{fields};

use crate::descriptor::Descriptor;

/// Whether the descriptors are equal.
pub fn same_descriptor(a: &Descriptor, b: &Descriptor) -> bool
    ensures { IsTrue result ↔ (fields a.now ≡ fields b.now) }
{
    a.pasid == b.pasid
        && a.privileged == b.privileged
        && a.flags == b.flags
        && a.record_at == b.record_at
        && a.size == b.size
        && a.int_handle == b.int_handle
        && a.op == b.op
}

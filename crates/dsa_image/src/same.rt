//! Whether two images or two lists of descriptors are equal.

ghost use Rattle.std.specs.Prelude.{◌≡◌, ◌↔◌, IsTrue, map};
ghost use Rattle.dsa_descriptor.specs.Descriptors.{fields};

use crate::image::Image;
use dsa_descriptor::{Descriptor, same_descriptor};

/// Whether the images are equal.
pub fn same_image(a: &Image, b: &Image) -> bool
    ensures { IsTrue result ↔ (a.now ≡ b.now) }
{
    if a.base() != b.base() {
        return false;
    }
    a.bytes() == b.bytes()
}

/// Whether the lists of pieces are equal.
pub fn same_pieces(a: &[Descriptor], b: &[Descriptor]) -> bool
    ensures { IsTrue result ↔ (map fields a.now ≡ map fields b.now) }
{
    if a.len() != b.len() {
        return false;
    }
    for i in 0..a.len() {
        if !same_descriptor(&a[i], &b[i]) {
            return false;
        }
    }
    true
}

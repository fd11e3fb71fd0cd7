//! Descriptors as pieces that engines work.

ghost use Rattle.dsa_core.specs.DescriptorWork.{descriptor_work};

use crate::work::Workable;
use dsa_descriptor::{Descriptor, Record, same_descriptor};
use dsa_image::{Image, Inputs, Outputs, Partial, lines, same_pieces};
use std::marker::Model;

/// What contracts see of a descriptor that engines work: its fields. No code makes one.
#[derive(Drop)]
pub struct DescriptorFields {
    descriptor: Descriptor,
}

impl Model for DescriptorFields {
    ghost use Rattle.dsa_descriptor.specs.Descriptors.{fields};
    ghost use Rattle.dsa_descriptor.specs.Fields.{Fields};

    ghost Value = { Fields };

    ghost view = { λ x. fields x.descriptor };
}

impl Workable for Descriptor {
    type Shown = DescriptorFields;

    type Partial = Partial;

    type Inputs = Inputs;

    type Outputs = Outputs;

    ghost work = { descriptor_work };

    #[inline(always)]
    fn start() -> Partial {
        Partial {
            difference: None,
            fault: None,
        }
    }

    #[inline(always)]
    fn line_count(&self) -> u64 {
        lines(self)
    }

    fn are_same(a: &[Descriptor], b: &[Descriptor]) -> bool {
        same_pieces(a, b)
    }

    #[inline(always)]
    fn do_line(&self, image: &mut Image, line: u64, partial: &mut Partial) {
        image.line(self, line, partial);
    }

    #[inline(always)]
    fn gather(&self, image: &Image, line: u64, partial: &Partial) -> Inputs {
        image.gather(self, line, partial)
    }

    #[inline(always)]
    fn gather_into(&self, image: &Image, line: u64, partial: &Partial, inputs: &mut Inputs) {
        image.gather_into(self, line, partial, inputs);
    }

    #[inline(always)]
    fn is_of_line(&self, inputs: &Inputs, line: u64, partial: &Partial) -> bool {
        same_descriptor(&inputs.descriptor, self)
            && inputs.line == line
            && inputs.partial == *partial
    }

    #[inline(always)]
    fn lines_after(inputs: &Inputs) -> u64 {
        let _all = lines(&inputs.descriptor);
        inputs.line + 1
    }

    #[inline(always)]
    fn still_reads(image: &Image, inputs: &Inputs) -> bool {
        image.still_gives(inputs)
    }

    #[inline(always)]
    fn no_outputs() -> Outputs {
        Outputs::empty()
    }

    #[inline(always)]
    fn compute(inputs: &Inputs, outputs: &mut Outputs) {
        inputs.compute_into(outputs);
    }

    #[inline(always)]
    fn store(image: &mut Image, outputs: &Outputs) -> Partial {
        let mut partial = Self::start();
        image.store(outputs, &mut partial);
        partial
    }

    #[inline(always)]
    fn finish(&self, image: &mut Image, partial: &Partial) -> Record {
        image.finish(self, partial)
    }

    fn work_fits() {}
}

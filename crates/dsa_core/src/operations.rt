//! Operations as pieces that engines work: each as its kind is.

ghost use Rattle.std.specs.Prelude.{◌↔◌, All, IsTrue};
ghost use Rattle.dsa_core.specs.Machine.{HoldsPiece};
ghost use Rattle.dsa_core.specs.Operations.{operation_machine};
ghost use Rattle.dsa_core.specs.OperationWork.{OperationGives, operation_work};

use crate::checksum_lines::{
    checksum_lines, compute_checksum, finish_checksum, gather_checksum, gather_checksum_into,
    no_checksum, still_reads_checksum,
};
use crate::inputs::OperationInputs;
use crate::outputs::OperationOutputs;
use crate::partial::OperationPartial;
use crate::work::Workable;
use dsa_descriptor::{Descriptor, Entry, Record};
use dsa_image::{Image, Outputs, Partial};
use dsa_operations::Operation;

impl Workable for Operation {
    type Shown = Operation;

    type Partial = OperationPartial;

    type Inputs = OperationInputs;

    type Outputs = OperationOutputs;

    ghost work = { operation_work };

    #[inline(always)]
    fn start() -> OperationPartial {
        OperationPartial {
            found: Descriptor::start(),
            value: 0,
        }
    }

    fn line_count(&self) -> u64 {
        match self {
            Operation::Descriptor(d) => d.line_count(),
            Operation::Checksum(c) => checksum_lines(c),
        }
    }

    fn are_same(a: &[Operation], b: &[Operation]) -> bool {
        if a.len() != b.len() {
            return false;
        }
        for i in 0..a.len() {
            if !a[i].is_same(&b[i]) {
                return false;
            }
        }
        true
    }

    fn do_line(&self, image: &mut Image, line: u64, partial: &mut OperationPartial) {
        match self {
            Operation::Descriptor(d) => d.do_line(image, line, &mut partial.found),
            Operation::Checksum(c) => {
                let inputs = gather_checksum(image, c, line, partial.value);
                let mut outputs = no_checksum();
                compute_checksum(&inputs, &mut outputs);
                image.put_all(outputs.at, outputs.bytes.as_slice());
                partial.value = outputs.value;
            }
        }
    }

    fn gather(&self, image: &Image, line: u64, partial: &OperationPartial) -> OperationInputs {
        match self {
            Operation::Descriptor(d) => OperationInputs::Descriptor {
                inputs: d.gather(image, line, &partial.found),
                value: partial.value,
            },
            Operation::Checksum(c) => OperationInputs::Checksum {
                inputs: gather_checksum(image, c, line, partial.value),
                found: partial.found,
            },
        }
    }

    fn gather_into(
        &self,
        image: &Image,
        line: u64,
        partial: &OperationPartial,
        inputs: &mut OperationInputs,
    ) {
        match (self, &mut *inputs) {
            (Operation::Descriptor(d), OperationInputs::Descriptor { inputs: own, value }) => {
                d.gather_into(image, line, &partial.found, own);
                *value = partial.value;
            }
            (Operation::Checksum(c), OperationInputs::Checksum { inputs: own, found }) => {
                gather_checksum_into(image, c, line, partial.value, own);
                *found = partial.found;
            }
            _ => *inputs = self.gather(image, line, partial),
        }
    }

    fn is_of_line(&self, inputs: &OperationInputs, line: u64, partial: &OperationPartial) -> bool {
        match (self, inputs) {
            (Operation::Descriptor(d), OperationInputs::Descriptor { inputs: own, value }) => {
                d.is_of_line(own, line, &partial.found) && *value == partial.value
            }
            (Operation::Checksum(c), OperationInputs::Checksum { inputs: own, found }) => {
                Operation::Checksum(own.checksum).is_same(&Operation::Checksum(*c))
                    && own.line == line
                    && own.value == partial.value
                    && *found == partial.found
            }
            _ => false,
        }
    }

    fn lines_after(inputs: &OperationInputs) -> u64 {
        match inputs {
            OperationInputs::Descriptor { inputs: own, .. } => Descriptor::lines_after(own),
            OperationInputs::Checksum { inputs: own, .. } => {
                let _all = checksum_lines(&own.checksum);
                own.line + 1
            }
        }
    }

    fn still_reads(image: &Image, inputs: &OperationInputs) -> bool {
        match inputs {
            OperationInputs::Descriptor { inputs: own, .. } => Descriptor::still_reads(image, own),
            OperationInputs::Checksum { inputs: own, .. } => still_reads_checksum(image, own),
        }
    }

    fn no_outputs() -> OperationOutputs {
        OperationOutputs::Descriptor {
            outputs: Outputs::empty(),
            value: 0,
        }
    }

    fn compute(inputs: &OperationInputs, outputs: &mut OperationOutputs) {
        match (inputs, &mut *outputs) {
            (
                OperationInputs::Descriptor {
                    inputs: from,
                    value,
                },
                OperationOutputs::Descriptor {
                    outputs: own,
                    value: kept,
                },
            ) => {
                Descriptor::compute(from, own);
                *kept = *value;
            }
            (
                OperationInputs::Checksum {
                    inputs: from,
                    found,
                },
                OperationOutputs::Checksum {
                    outputs: own,
                    found: kept,
                },
            ) => {
                compute_checksum(from, own);
                *kept = *found;
            }
            _ => *outputs = computed(inputs),
        }
    }

    fn store(image: &mut Image, outputs: &OperationOutputs) -> OperationPartial {
        match outputs {
            OperationOutputs::Descriptor {
                outputs: own,
                value,
            } => OperationPartial {
                found: Descriptor::store(image, own),
                value: *value,
            },
            OperationOutputs::Checksum {
                outputs: own,
                found,
            } => {
                image.put_all(own.at, own.bytes.as_slice());
                OperationPartial {
                    found: *found,
                    value: own.value,
                }
            }
        }
    }

    fn finish(&self, image: &mut Image, partial: &OperationPartial) -> Record {
        match self {
            Operation::Descriptor(d) => d.finish(image, &partial.found),
            Operation::Checksum(c) => {
                finish_checksum(image, c, partial.value);
                Record {
                    status: 1,
                    result: 0,
                    bytes_completed: 0,
                }
            }
        }
    }

    fn work_fits() {}
}

/// Whether the image has every address that the operations read or write.
pub fn holds_operations(image: &Image, operations: &[Operation]) -> bool
    ensures { IsTrue result ↔ All (HoldsPiece operation_machine image.now) operations.now }
{
    for operation in operations {
        if !image.holds_piece(operation) {
            return false;
        }
    }
    true
}

/// The outputs of a line. Not inlined: a function zeroes its frame at each call, and outputs are large.
#[cold]
#[inline(never)]
fn computed(inputs: &OperationInputs) -> OperationOutputs
    ensures { OperationGives inputs.now result }
{
    match inputs {
        OperationInputs::Descriptor {
            inputs: from,
            value,
        } => {
            let mut outputs = Outputs::empty();
            Descriptor::compute(from, &mut outputs);
            OperationOutputs::Descriptor {
                outputs,
                value: *value,
            }
        }
        OperationInputs::Checksum {
            inputs: from,
            found,
        } => {
            let mut outputs = no_checksum();
            compute_checksum(from, &mut outputs);
            OperationOutputs::Checksum {
                outputs,
                found: *found,
            }
        }
    }
}

use crate::given::descriptor_bytes;
use dsa_descriptor::Descriptor;
use dsa_ranges::{Span, meets, touched};

fn span(first: u64, len: u64) -> Span {
    Span { first, len }
}

#[test]
fn spans_meet(rt: HostRuntime) {
    assert!(rt; meets(span(0x1000, 64), span(0x103f, 1)));
    assert!(rt; !meets(span(0x1000, 64), span(0x1040, 64)));
    assert!(rt; !meets(span(0x1000, 64), span(0x1010, 0)));
    assert!(rt; !meets(span(0x1010, 0), span(0x1010, 0)));
    assert!(rt; meets(span(u64::MAX, 1), span(u64::MAX - 7, 8)));
    assert!(rt; meets(span(0, u64::MAX), span(u64::MAX - 1, u64::MAX)));
    assert!(rt; !meets(span(0, u64::MAX), span(u64::MAX, u64::MAX)));
}

/// What each operation reads and writes, beside its record of 32 bytes.
#[test]
fn ranges_of_each_operation(rt: HostRuntime) {
    let operations = [
        (descriptor_bytes(3, 0x8000, 0x1000, 0x2000, 0, 64), 1, 1),
        (descriptor_bytes(4, 0x8000, 0x1000, 0x2000, 0, 64), 0, 1),
        (descriptor_bytes(5, 0x8000, 0x1000, 0x2000, 1, 64), 2, 0),
        (descriptor_bytes(6, 0x8000, 0x1000, 0x2000, 1, 64), 1, 0),
        (descriptor_bytes(8, 0x8000, 0x1000, 0x2000, 20, 64), 2, 1),
        (
            descriptor_bytes(9, 0x8000, 0x1000, 0x2000, 0x3000, 64),
            1,
            2,
        ),
    ];
    for (bytes, reads, targets) in &operations {
        match Descriptor::read(bytes) {
            Ok(d) => {
                let touched = touched(&d);
                assert_eq!(rt; touched.reads.len(), *reads);
                assert_eq!(rt; touched.writes.len(), *targets + 1);
                assert!(rt; touched.writes.first().copied() == Some(span(0x8000, 32)));
            }
            Err(fault) => assert!(rt; false, "{fault:?}"),
        }
    }
}

use crate::given::move_of;
use dsa_descriptor::Descriptor;
use dsa_ranges::{HazardKind, find_hazard, touched};
use std::test::Fail;

/// The earlier move reads from 0x1000 to below 0x1040, and writes from 0x2000 to below 0x2040. With
/// each of the last two moves it has two kinds of hazard.
#[test]
fn each_kind_of_hazard(rt: HostRuntime) -> Result<(), Fail> {
    let earlier = touched(&Descriptor::read(&move_of(0x1000, 0x2000, 0x8000))?);
    let rows = [
        (
            move_of(0x2020, 0x4000, 0x8020),
            Some((0x2020, HazardKind::ReadAfterWrite)),
        ),
        (
            move_of(0x3000, 0x1030, 0x8020),
            Some((0x1030, HazardKind::WriteAfterRead)),
        ),
        (
            move_of(0x3000, 0x203f, 0x8020),
            Some((0x203f, HazardKind::WriteAfterWrite)),
        ),
        (
            move_of(0x3000, 0x4000, 0x8000),
            Some((0x8000, HazardKind::WriteAfterWrite)),
        ),
        (move_of(0x1000, 0x2040, 0x8020), None),
        (
            move_of(0x2000, 0x2020, 0x8020),
            Some((0x2000, HazardKind::ReadAfterWrite)),
        ),
        (
            move_of(0x3000, 0x2000, 0x1000),
            Some((0x2000, HazardKind::WriteAfterWrite)),
        ),
    ];
    for (bytes, expected) in &rows {
        let later = touched(&Descriptor::read(bytes)?);
        let found = find_hazard(&earlier, &later).map(|hazard| (hazard.address, hazard.kind));
        assert!(rt; found == *expected);
    }
    Ok(())
}

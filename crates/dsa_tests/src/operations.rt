//! Lists of operations, checksums among them.

use dsa_calls::{FencedFault, PlanFault};
use dsa_checker::CheckFault;
use dsa_descriptor::{
    FieldFault, ListFault, Span, descriptors_are_fenced_alike, entries_read_back, read_entries,
    write_entries,
};
use dsa_lists::{check_any_list, plan_any_list, plan_operation_list, search_operations};
use dsa_operations::{Operation, OperationList};
use dsa_plan::{LegalFault, Settings};
use dsa_prepared::{PrepareFault, fill_rows, prepare_any_list};
use dsa_splitter::SplitFault;
use std::test::Fail;

/// The checksum of 256 bytes at 0x1000, with the seed 0, record 0x8000.
const GIVEN: [u8; 64] = [
    0x00, 0x00, 0x00, 0x00, 0x0c, 0x00, 0x00, 0x10, 0x00, 0x80, 0x00, 0x00, 0x00, 0x00, 0x00, 0x00,
    0x00, 0x10, 0x00, 0x00, 0x00, 0x00, 0x00, 0x00, 0x00, 0x00, 0x00, 0x00, 0x00, 0x00, 0x00, 0x00,
    0x00, 0x01, 0x00, 0x00, 0x00, 0x00, 0x00, 0x00, 0x00, 0x00, 0x00, 0x00, 0x00, 0x00, 0x00, 0x00,
    0x00, 0x00, 0x00, 0x00, 0x00, 0x00, 0x00, 0x00, 0x00, 0x00, 0x00, 0x00, 0x00, 0x00, 0x00, 0x00,
];

/// The checksum of 256 bytes at 0x1100, with the seed that the four bytes at 0x8010 have, record 0x8020.
const IN_MEMORY: [u8; 64] = [
    0x00, 0x00, 0x00, 0x00, 0x0c, 0x00, 0x01, 0x10, 0x20, 0x80, 0x00, 0x00, 0x00, 0x00, 0x00, 0x00,
    0x00, 0x11, 0x00, 0x00, 0x00, 0x00, 0x00, 0x00, 0x00, 0x00, 0x00, 0x00, 0x00, 0x00, 0x00, 0x00,
    0x00, 0x01, 0x00, 0x00, 0x00, 0x00, 0x00, 0x00, 0x00, 0x00, 0x00, 0x00, 0x00, 0x00, 0x00, 0x00,
    0x10, 0x80, 0x00, 0x00, 0x00, 0x00, 0x00, 0x00, 0x00, 0x00, 0x00, 0x00, 0x00, 0x00, 0x00, 0x00,
];

/// A copy of 64 bytes from 0x3000 to 0x4000 with its checksum, which is neither inverted nor reflected, after a fence,
/// record 0x8040.
const FENCED_COPY: [u8; 64] = [
    0x00, 0x00, 0x00, 0x00, 0x0d, 0x00, 0x02, 0x11, 0x40, 0x80, 0x00, 0x00, 0x00, 0x00, 0x00, 0x00,
    0x00, 0x30, 0x00, 0x00, 0x00, 0x00, 0x00, 0x00, 0x00, 0x40, 0x00, 0x00, 0x00, 0x00, 0x00, 0x00,
    0x40, 0x00, 0x00, 0x00, 0x00, 0x00, 0x00, 0x00, 0x00, 0x00, 0x00, 0x00, 0x00, 0x00, 0x00, 0x00,
    0x00, 0x00, 0x00, 0x00, 0x00, 0x00, 0x00, 0x00, 0x00, 0x00, 0x00, 0x00, 0x00, 0x00, 0x00, 0x00,
];

/// The two checksums and the copy.
fn two_checksums_and_a_copy() -> [u8; 192] {
    let mut list = [0; 192];
    list[..64].copy_from_slice(&GIVEN);
    list[64..128].copy_from_slice(&IN_MEMORY);
    list[128..].copy_from_slice(&FENCED_COPY);
    list
}

/// The second checksum reads its seed in the record of the first, and the copy comes after a barrier. One batch with
/// two fences costs 14 + 2 * 3, less than three submissions, or than a batch of two and a lone one; the first two cost
/// 14 + 3.
#[test]
fn checksums_are_planned(rt: HostRuntime) -> Result<(), Fail> {
    let alloc = rt.alloc();
    let settings = Settings::new(32, 4096, 10, 14, 3, 65536)?;
    let list: OperationList = read_entries(alloc, &two_checksums_and_a_copy())?;
    assert!(rt; list.barriers.as_slice() == [false, false, true].as_slice());
    assert!(rt; list.entries.len() == 3);
    let Operation::Checksum(copied) = &list.entries[2] else {
        panic!(rt; "the third is no checksum");
    };
    assert!(rt; copied.variant().bypasses_inversion && !copied.variant().bypasses_data_reflection);
    let found = search_operations(alloc, &list.entries, &list.barriers, &settings)?;
    assert!(rt; found.prices.as_slice() == [0, 10, 17, 20].as_slice());
    assert!(rt; found.plan.groups().len() == 1);
    assert!(rt; found.plan.groups()[0].fences() == [false, true, true].as_slice());
    Ok(())
}

#[test]
fn operations_are_written_as_they_were_read(rt: HostRuntime) -> Result<(), Fail> {
    let alloc = rt.alloc();
    let bytes = two_checksums_and_a_copy();
    let list: OperationList = read_entries(alloc, &bytes)?;
    let written = write_entries(alloc, &list.entries, &list.barriers)?;
    assert!(rt; written.as_slice() == bytes.as_slice());
    entries_read_back::<Operation>();
    descriptors_are_fenced_alike();
    Ok(())
}

/// Only 0x10 and 0x11 make checksums.
#[test]
fn another_code_is_refused_at_its_index(rt: HostRuntime) {
    let mut bytes = two_checksums_and_a_copy();
    bytes[71] = 0x12;
    let fault = read_entries::<Operation>(rt.alloc(), &bytes).err();
    assert!(rt; fault == Some(ListFault::Field(1, FieldFault::Opcode)));
}

/// One entry for the batch, whose record comes after the three descriptors; in the staging area the second and the
/// third have the fence, and there is room for the record.
#[test]
fn checksums_are_submitted(rt: HostRuntime) -> Result<(), Fail> {
    let settings = Settings::new(32, 4096, 10, 14, 3, 0x10000)?;
    let planned = plan_operation_list(rt.alloc(), &two_checksums_and_a_copy(), &settings)?;
    let mut portal = [0; 64];
    portal[4..8].copy_from_slice(&[0x0c, 0x00, 0x00, 0x01]);
    portal[8..11].copy_from_slice(&[0xc0, 0x00, 0x01]);
    portal[16..19].copy_from_slice(&[0x00, 0x00, 0x01]);
    portal[32] = 3;
    let mut staging = [0; 224];
    staging[..192].copy_from_slice(&two_checksums_and_a_copy());
    staging[68] = 0x0d;
    assert!(rt; planned.cost == 20);
    assert!(rt; planned.emission.portal.as_slice() == portal.as_slice());
    assert!(rt; planned.emission.staging.as_slice() == staging.as_slice());
    Ok(())
}

/// No operation is split, and the staging area has 96 bytes for each.
#[test]
fn what_cannot_be_submitted_is_refused(rt: HostRuntime) -> Result<(), Fail> {
    let list = two_checksums_and_a_copy();
    let short = Settings::new(32, 248, 10, 14, 3, 0x10000)?;
    let over = plan_operation_list(rt.alloc(), &list, &short).err();
    assert!(rt; over == Some(PlanFault::OverTransfer(0)));
    let met = Settings::new(32, 4096, 10, 14, 3, 0x4000)?;
    let meeting = plan_operation_list(rt.alloc(), &list, &met).err();
    assert!(rt; meeting == Some(PlanFault::Split(SplitFault::StagingMeets(2))));
    let beside = Settings::new(32, 4096, 10, 14, 3, 0x4040)?;
    assert!(rt; plan_operation_list(rt.alloc(), &list, &beside).is_ok());
    Ok(())
}

/// The bytes that submit the list are accepted for it with their certificate, at their cost.
#[test]
fn planned_checksums_are_accepted(rt: HostRuntime) -> Result<(), Fail> {
    let alloc = rt.alloc();
    let list = two_checksums_and_a_copy();
    let settings = Settings::new(32, 4096, 10, 14, 3, 0x10000)?;
    let planned = plan_any_list(alloc, &list, &settings)?;
    assert!(rt; planned.pieces == 3);
    let (portal, staging) = (&planned.emission.portal, &planned.emission.staging);
    let cost = check_any_list(
        alloc,
        &list,
        portal,
        staging,
        &settings,
        &planned.certificate,
    );
    assert!(rt; cost.ok() == Some(20));
    Ok(())
}

/// Without the fence before the copy they are not: the barrier there is not kept. Nor are those of a list whose second
/// checksum reads its seed elsewhere.
#[test]
fn other_bytes_are_refused_for_checksums(rt: HostRuntime) -> Result<(), Fail> {
    let alloc = rt.alloc();
    let list = two_checksums_and_a_copy();
    let settings = Settings::new(32, 4096, 10, 14, 3, 0x10000)?;
    let planned = plan_any_list(alloc, &list, &settings)?;
    let (portal, certificate) = (&planned.emission.portal, &planned.certificate);
    let mut staging = [0; 224];
    staging.copy_from_slice(&planned.emission.staging);
    let mut other = list;
    other[112] = 0x14;
    let elsewhere = check_any_list(alloc, &other, portal, &staging, &settings, certificate);
    assert!(rt; matches!(elsewhere, Err(FencedFault::OtherPiece(1))));
    staging[132] = 0x0c;
    let unfenced = check_any_list(alloc, &list, portal, &staging, &settings, certificate);
    let Err(FencedFault::Call(fault)) = unfenced else {
        panic!(rt; "the barrier need not be kept");
    };
    assert!(rt; fault == PlanFault::Check(CheckFault::Plan(LegalFault::Unfenced(1, 2))));
    Ok(())
}

/// A list of descriptors is planned as such: its long operation is split.
#[test]
fn descriptors_are_split(rt: HostRuntime) -> Result<(), Fail> {
    let alloc = rt.alloc();
    let mut list = FENCED_COPY;
    list[6..8].copy_from_slice(&[0x00, 0x03]);
    let settings = Settings::new(32, 32, 10, 14, 3, 0x10000)?;
    let planned = plan_any_list(alloc, &list, &settings)?;
    assert!(rt; planned.pieces == 2);
    list[7] = 0x11;
    let fault = plan_any_list(alloc, &list, &settings).err();
    assert!(rt; fault == Some(PlanFault::OverTransfer(0)));
    Ok(())
}

/// The buffers of the two checksums, of the copy's source and its target, and the records.
const BUFFERS: [Span; 4] = [
    Span {
        first: 0x1000,
        len: 0x200,
    },
    Span {
        first: 0x3000,
        len: 0x40,
    },
    Span {
        first: 0x4000,
        len: 0x40,
    },
    Span {
        first: 0x8000,
        len: 0x60,
    },
];

/// The two checksums and the copy with the buffers at 0x91000, 0x73001, 0x64000 and 0x58020.
fn the_same_elsewhere() -> [u8; 192] {
    let mut list = two_checksums_and_a_copy();
    list[8..16].copy_from_slice(&0x5_8020u64.to_le_bytes());
    list[16..24].copy_from_slice(&0x9_1000u64.to_le_bytes());
    list[72..80].copy_from_slice(&0x5_8040u64.to_le_bytes());
    list[80..88].copy_from_slice(&0x9_1100u64.to_le_bytes());
    list[112..120].copy_from_slice(&0x5_8030u64.to_le_bytes());
    list[136..144].copy_from_slice(&0x5_8060u64.to_le_bytes());
    list[144..152].copy_from_slice(&0x7_3001u64.to_le_bytes());
    list[152..160].copy_from_slice(&0x6_4000u64.to_le_bytes());
    list
}

/// A seed's address goes with the records, in bytes 48 to 55; what is filled else is what was planned.
#[test]
fn checksums_are_filled_for_other_buffers(rt: HostRuntime) -> Result<(), Fail> {
    let alloc = rt.alloc();
    let settings = Settings::new(32, 4096, 10, 14, 3, 0x1_0000)?;
    let list = two_checksums_and_a_copy();
    let costed = prepare_any_list(alloc, &list, &settings, &BUFFERS)?;
    let bases = [0x9_1000, 0x7_3001, 0x6_4000, 0x5_8020];
    let (mut portal, mut area) = ([9; 64], [9; 224]);
    fill_rows(
        costed.prepared.as_rows(),
        &bases,
        0x2_0000,
        &mut portal,
        &mut area,
    )?;
    let there = Settings::new(32, 4096, 10, 14, 3, 0x2_0000)?;
    let planned = plan_any_list(alloc, &the_same_elsewhere(), &there)?;
    let mut staging = [0; 224];
    staging[..192].copy_from_slice(&the_same_elsewhere());
    staging[68] = 0x0d;
    assert!(rt; costed.cost == 20 && planned.cost == 20);
    assert!(rt; area == staging);
    assert!(rt; planned.emission.staging.as_slice() == area.as_slice());
    assert!(rt; planned.emission.portal.as_slice() == portal.as_slice());
    Ok(())
}

/// The last byte of the seed comes after the buffer.
#[test]
fn a_seed_outside_of_the_buffers_is_refused(rt: HostRuntime) -> Result<(), Fail> {
    let alloc = rt.alloc();
    let settings = Settings::new(32, 4096, 10, 14, 3, 0x1_0000)?;
    let mut list = two_checksums_and_a_copy();
    list[112..120].copy_from_slice(&0x11fdu64.to_le_bytes());
    let fault = prepare_any_list(alloc, &list, &settings, &BUFFERS).err();
    assert!(rt; fault == Some(PrepareFault::Outside(1)));
    Ok(())
}

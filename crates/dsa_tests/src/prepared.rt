use crate::given::{
    compare_bytes, delta_bytes, dualcast_bytes, fill_bytes, move_bytes, pattern_bytes,
};
use dsa_calls::{PlanFault, plan_list};
use dsa_descriptor::{ListFault, Span};
use dsa_plan::Settings;
use dsa_prepared::{FillFault, PrepareFault, Prepared, fill_rows, prepare};
use std::alloc::{AllocError, Global};
use std::test::Fail;

/// The addresses of the buffers of a list: three of data, and one of completion records.
type Bases = [u32; 4];

/// The addresses when the list is prepared, and those where it is filled.
const OLD: Bases = [0x1_0000, 0x2_0000, 0x3_0000, 0x4_0000];

const NEW: Bases = [0x90_0008, 0x70_0123, 0x60_0123, 0x50_0020];

const STAGING: u64 = 0x100_0000;

const NEW_STAGING: u64 = 0x200_0000;

/// What submits the list at `NEW`, from `emission` of tests/model.py: the first six words of each entry of the portal,
/// and of each entry of the staging area, after which 64 bytes for the records of two batches follow. The other words
/// are 0.
const PORTAL: [[u64; 6]; 3] = [
    [0x100_000c_0000_0000, 0x200_0200, 0x200_0000, 0, 4, 0],
    [0x100_000c_0000_0000, 0x200_0220, 0x200_0100, 0, 4, 0],
    [
        0x800_000c_0000_0000,
        0x50_0160,
        0x70_0123,
        0x90_0010,
        64,
        20,
    ],
];

const BATCHED: [[u64; 6]; 8] = [
    [
        0x300_000c_0000_0000,
        0x50_0020,
        0x90_0008,
        0x70_0123,
        4096,
        0,
    ],
    [
        0x300_000c_0000_0000,
        0x50_0040,
        0x90_1008,
        0x70_1123,
        4096,
        0,
    ],
    [
        0x300_000c_0000_0000,
        0x50_0060,
        0x90_2008,
        0x70_2123,
        1808,
        0,
    ],
    [
        0x400_000d_0000_0000,
        0x50_00a0,
        0x102_0304_0506_0708,
        0x90_0008,
        100,
        0,
    ],
    [0x500_000c_0000_0000, 0x50_00c0, 0x90_0008, 0x70_0123, 64, 1],
    [0x600_000c_0000_0000, 0x50_00e0, 0x70_0123, 7, 64, 0],
    [
        0x900_000c_0000_0000,
        0x50_0100,
        0x90_0008,
        0x70_4123,
        4096,
        0x60_0123,
    ],
    [
        0x900_000c_0000_0000,
        0x50_0120,
        0x90_1008,
        0x70_5123,
        904,
        0x60_1123,
    ],
];

fn settings(staging: u64) -> Result<Settings, Fail> {
    Ok(Settings::new(4, 4096, 100, 100, 10, staging)?)
}

/// The bases as numbers of 64 bits.
fn wide(bases: &Bases) -> [u64; 4] {
    let [one, two, three, records] = *bases;
    [one.into(), two.into(), three.into(), records.into()]
}

/// Buffers of these lengths at the old bases.
fn regions() -> [Span; 4] {
    let [one, two, three, records] = wide(&OLD);
    [
        Span {
            first: one,
            len: 0x4000,
        },
        Span {
            first: two,
            len: 0x6000,
        },
        Span {
            first: three,
            len: 0x3000,
        },
        Span {
            first: records,
            len: 0x400,
        },
    ]
}

/// One of each operation, two of them split into pieces.
fn one_of_each(alloc: Global, bases: &Bases) -> Result<Vec<u8>, AllocError> {
    let [one, two, three, records] = wide(bases);
    let record = |offset: u64| records.wrapping_add(offset);
    let mut list = Vec::new(alloc);
    for entry in [
        move_bytes(one, two, 10_000, records),
        fill_bytes(0x102_0304_0506_0708, one, 100, record(128)),
        compare_bytes(one, two, 64, record(160)),
        pattern_bytes(two, 7, 64, record(192)),
        dualcast_bytes(one, two.wrapping_add(0x4000), three, 5000, record(224)),
        delta_bytes(two, one.wrapping_add(8), 64, record(320)),
    ] {
        list.extend_from_slice(&entry)?;
    }
    Ok(list)
}

/// The bytes of the entries.
fn entry_bytes(alloc: Global, entries: &[[u64; 6]]) -> Result<Vec<u8>, AllocError> {
    let mut bytes = Vec::new(alloc);
    for entry in entries {
        for word in entry {
            bytes.extend_from_slice(&word.to_le_bytes())?;
        }
        bytes.extend_from_slice(&[0; 16])?;
    }
    Ok(bytes)
}

/// So many bytes of 9.
fn nines(alloc: Global, count: usize) -> Result<Vec<u8>, AllocError> {
    let mut bytes = Vec::new(alloc);
    bytes.resize(count, 9)?;
    Ok(bytes)
}

#[test]
fn a_filled_submission_has_the_bytes_of_the_model(rt: HostRuntime) -> Result<(), Fail> {
    let alloc = rt.alloc();
    let list = one_of_each(alloc, &OLD)?;
    let prepared = prepare(alloc, &list, &settings(STAGING)?, &regions())?.prepared;
    assert!(rt; (prepared.portal_len(), prepared.staging_len()) == (192, 576));
    let (mut portal, mut area) = (nines(alloc, 200)?, nines(alloc, 580)?);
    let rows = prepared.as_rows();
    fill_rows(rows, &wide(&NEW), NEW_STAGING, &mut portal, &mut area)?;
    let mut expected = entry_bytes(alloc, &PORTAL)?;
    expected.extend_from_slice(&[9; 8])?;
    assert!(rt; portal == expected);
    let mut expected = entry_bytes(alloc, &BATCHED)?;
    expected.extend_from_slice(&[0; 64])?;
    expected.extend_from_slice(&[9; 4])?;
    assert!(rt; area == expected);
    Ok(())
}

/// What filling answers for these bases, and whether it has left buffers of these lengths as they were.
fn refusal(
    alloc: Global,
    prepared: &Prepared,
    bases: &[u64],
    staging: u64,
    lens: (usize, usize),
) -> Result<(Result<(), FillFault>, bool), AllocError> {
    let (mut portal, mut area) = (nines(alloc, lens.0)?, nines(alloc, lens.1)?);
    let answer = fill_rows(prepared.as_rows(), bases, staging, &mut portal, &mut area);
    let left = portal == nines(alloc, lens.0)? && area == nines(alloc, lens.1)?;
    Ok((answer, left))
}

#[test]
fn bases_are_refused_in_order_and_nothing_is_written(rt: HostRuntime) -> Result<(), Fail> {
    let alloc = rt.alloc();
    let list = one_of_each(alloc, &OLD)?;
    let prepared = prepare(alloc, &list, &settings(STAGING)?, &regions())?.prepared;
    let [one, two, three, records] = wide(&NEW);
    let wrap = 0xffff_ffff_ffff_f123;
    for (bases, staging, fault) in [
        ([wrap, wrap, three, records], 1, FillFault::RegionWrap(0)),
        ([one, wrap, three, records], 1, FillFault::RegionWrap(1)),
        (
            [0x90_0009, two, 0x60_0124, 0x50_0021],
            1,
            FillFault::Misaligned(0),
        ),
        (
            [one, two, 0x60_0124, 0x50_0028],
            1,
            FillFault::Misaligned(3),
        ),
        (
            [one, one, 0x60_0908, records],
            1,
            FillFault::DualcastBits(1, 2),
        ),
        (
            [one, 0x90_3123, three, 0x90_0020],
            1,
            FillFault::RegionsMeet(1, 0),
        ),
        (
            [one, two, three, 0x70_6100],
            0x70_0123,
            FillFault::RegionsMeet(3, 1),
        ),
        (
            [one, two, three, 0x70_6140],
            0x60_0001,
            FillFault::StagingMeets(2),
        ),
        ([one, two, three, records], 0x200_0001, FillFault::Staging),
        (
            [one, two, three, records],
            0x8000_0000_0000_0040,
            FillFault::Staging,
        ),
    ] {
        let found = refusal(alloc, &prepared, &bases, staging, (192, 576))?;
        assert!(rt; found == (Err(fault), true));
    }
    let short = refusal(alloc, &prepared, &[wrap, two, three], 1, (0, 0))?;
    assert!(rt; short == (Err(FillFault::Bases), true));
    for lens in [(191, 576), (192, 575)] {
        let found = refusal(alloc, &prepared, &[wrap, two, three, 1], 1, lens)?;
        assert!(rt; found == (Err(FillFault::Room), true));
    }
    Ok(())
}

/// What preparing the list on these regions is refused for.
fn prepare_fault(
    alloc: Global,
    list: &[u8],
    regions: &[Span],
) -> Result<Option<PrepareFault>, Fail> {
    match prepare(alloc, list, &settings(STAGING)?, regions) {
        Ok(_) => Ok(None),
        Err(fault) => Ok(Some(fault)),
    }
}

#[test]
fn lists_and_regions_are_refused_in_order(rt: HostRuntime) -> Result<(), Fail> {
    let alloc = rt.alloc();
    let list = one_of_each(alloc, &OLD)?;
    let [one, two, three, records] = regions();
    let wrap = Span {
        first: u64::MAX,
        len: 2,
    };
    let long = Span {
        first: one.first,
        len: 0x1_0001,
    };
    let short = Span {
        first: two.first,
        len: 0x5387,
    };
    let row = Span {
        first: records.first,
        len: 0x13f,
    };
    let refused = PrepareFault::Plan(PlanFault::List(ListFault::Length));
    assert!(rt; prepare_fault(alloc, &[0], &[wrap, one])? == Some(refused));
    for (regions, fault) in [
        ([one, wrap, two, records], PrepareFault::RegionWrap(1)),
        ([one, three, two, wrap], PrepareFault::RegionOrder(2)),
        ([long, two, three, records], PrepareFault::RegionOrder(1)),
        ([one, short, three, records], PrepareFault::Outside(4)),
        ([one, two, three, row], PrepareFault::Outside(5)),
    ] {
        assert!(rt; prepare_fault(alloc, &list, &regions)? == Some(fault));
    }
    Ok(())
}

/// The next of a sequence of numbers (xorshift).
fn next(state: u64) -> u64 {
    let a = state ^ state.wrapping_shl(13);
    let b = a ^ a.wrapping_shr(7);
    b ^ b.wrapping_shl(17)
}

/// The bytes of an operation that is made from the bits of a number, with its data in the buffers.
fn some_operation(bits: u64, data: &[u64; 3], record_at: u64) -> [u8; 64] {
    let place = (bits >> 8) % 0x1000;
    let other = (bits >> 20) % 0x1000;
    let size = 1 + ((bits >> 32) % 5000) as u32;
    let [one, two, three] = *data;
    let (src, dst) = match (bits >> 48) % 4 {
        0 => (one.wrapping_add(place), two.wrapping_add(other)),
        1 => (two.wrapping_add(place), two.wrapping_add(other)),
        2 => (two.wrapping_add(place), one.wrapping_add(other)),
        _ => (three.wrapping_add(place), one.wrapping_add(other)),
    };
    let (low, low2) = (two.wrapping_add(place), three.wrapping_add(place));
    match bits % 6 {
        0 => move_bytes(src, dst, size, record_at),
        1 => fill_bytes(bits, dst, size, record_at),
        2 => compare_bytes(src, dst, size, record_at),
        3 => pattern_bytes(src, bits, size, record_at),
        4 => dualcast_bytes(one.wrapping_add(other), low, low2, size, record_at),
        _ => delta_bytes(low, one.wrapping_add(other / 8 * 8), 64, record_at),
    }
}

/// A list of 1 to 12 operations made from the bits of a number.
fn some_list(alloc: Global, seed: u64, bases: &Bases) -> Result<Vec<u8>, AllocError> {
    let [one, two, three, records] = wide(bases);
    let mut list = Vec::new(alloc);
    let mut bits = seed;
    for k in 0..1 + seed % 12 {
        bits = next(bits);
        let record_at = records.wrapping_add(64 * k);
        list.extend_from_slice(&some_operation(bits, &[one, two, three], record_at))?;
    }
    Ok(list)
}

/// Bases made from the bits of a number, apart, in one of four orders, the data with equal low bits.
fn some_bases(bits: u64) -> Bases {
    let low = 8 * ((bits % 0x200) as u32);
    let records = 32 * (((bits >> 9) % 0x80) as u32);
    let turn = ((bits >> 20) % 4) as u32;
    let slot = |k: u32| 0x80_0000 + 0x1_0000 * ((turn + k) % 4);
    [
        slot(0) + low,
        slot(1) + low,
        slot(2) + low,
        slot(3) + records,
    ]
}

/// Prepared on the old bases and filled for others, the list has the bytes that planning it there answers.
fn fills_as_planned(alloc: Global, seed: u64) -> Result<bool, Fail> {
    let bases = some_bases(next(next(seed)));
    let list = some_list(alloc, seed, &OLD)?;
    let prepared = prepare(alloc, &list, &settings(STAGING)?, &regions())?.prepared;
    let there = some_list(alloc, seed, &bases)?;
    let planned = plan_list(alloc, &there, &settings(NEW_STAGING)?)?;
    let mut portal = nines(alloc, prepared.portal_len())?;
    let mut area = nines(alloc, prepared.staging_len())?;
    let rows = prepared.as_rows();
    fill_rows(rows, &wide(&bases), NEW_STAGING, &mut portal, &mut area)?;
    Ok(portal == planned.emission.portal && area == planned.emission.staging)
}

#[test]
fn generated_lists_are_filled_as_planned(rt: HostRuntime) -> Result<(), Fail> {
    let alloc = rt.alloc();
    let mut seed = 0x9e37_79b9_7f4a_7c15;
    for _ in 0..400 {
        seed = next(seed);
        assert!(rt; fills_as_planned(alloc, seed)?);
    }
    Ok(())
}

use crate::given::move_of;
use dsa_descriptor::Descriptor;
use dsa_explain::{
    Cell, Detail, ExplainFault, Explanation, GroupCost, MOST_PIECES, Reason,
    cells_are_pieces_and_fences, each_fence_once, explain, group_costs_add_up,
};
use dsa_lists::operations_of;
use dsa_plan::{Group, LegalFault, Plan, Settings, SettingsFault};
use dsa_ranges::{Hazard, HazardKind};
use std::alloc::{AllocError, Global};
use std::test::Fail;

/// Moves of 64 bytes between these sources and destinations, with their records one after another.
fn moves(alloc: Global, moves: &[(u64, u64)]) -> Result<Vec<Descriptor>, Fail> {
    let mut pieces = Vec::new(alloc);
    let mut record_at: u64 = 0x1_0000;
    for (src, dst) in moves {
        pieces.push(Descriptor::read(&move_of(*src, *dst, record_at))?)?;
        record_at = record_at.saturating_add(32);
    }
    Ok(pieces)
}

fn plan_of(alloc: Global, groups: &[&[bool]]) -> Result<Plan, AllocError> {
    let mut list = Vec::new(alloc);
    for fences in groups {
        list.push(Group::new(Vec::from_slice(alloc, fences)?))?;
    }
    Ok(Plan::new(list))
}

/// A batch of at most 4 pieces, a lone piece 10, a batch 14, each fence 3.
fn settings() -> Result<Settings, SettingsFault> {
    Settings::new(4, 4096, 10, 14, 3, 65536)
}

/// What explaining the plan of these moves answers.
fn explained(
    alloc: Global,
    list: &[(u64, u64)],
    groups: &[&[bool]],
) -> Result<Result<Explanation, ExplainFault>, Fail> {
    let pieces = moves(alloc, list)?;
    let plan = plan_of(alloc, groups)?;
    Ok(explain(
        alloc,
        &plan,
        &operations_of(alloc, &pieces)?,
        [].as_slice(),
        &settings()?,
        Detail::First,
    ))
}

/// What an explanation says of a fence: its piece, the first conflict that only this fence separates, and how many
/// more.
#[derive(Clone, Copy, PartialEq, Eq)]
struct Fence {
    piece: usize,
    reason: Option<Reason>,
    more: usize,
}

/// Whether these are the fences of the plan of these moves.
fn has_fences(
    alloc: Global,
    list: &[(u64, u64)],
    groups: &[&[bool]],
    fences: &[Fence],
) -> Result<bool, Fail> {
    match explained(alloc, list, groups)? {
        Ok(explanation) => are_fences(alloc, &explanation, fences),
        Err(_) => Ok(false),
    }
}

/// Whether these are the fences of the explanation.
fn are_fences(alloc: Global, explanation: &Explanation, fences: &[Fence]) -> Result<bool, Fail> {
    let mut found = Vec::new(alloc);
    for fence in &explanation.fences {
        found.push(Fence {
            piece: fence.piece,
            reason: fence.named.first().copied(),
            more: fence.more,
        })?;
    }
    Ok(found.as_slice() == fences)
}

fn needed(piece: usize, earlier: usize, later: usize, address: u64, kind: HazardKind) -> Fence {
    let hazard = Hazard { address, kind };
    Fence {
        piece,
        reason: Some(Reason {
            earlier,
            later,
            hazard,
        }),
        more: 0,
    }
}

fn idle(piece: usize) -> Fence {
    Fence {
        piece,
        reason: None,
        more: 0,
    }
}

/// The later of two moves reads what the earlier writes, writes what it reads, or writes what it writes.
#[test]
fn a_fence_for_each_kind_of_hazard(rt: HostRuntime) -> Result<(), Fail> {
    let rows = [
        ((0x2020, 0x4000), 0x2020, HazardKind::ReadAfterWrite),
        ((0x3000, 0x1030), 0x1030, HazardKind::WriteAfterRead),
        ((0x3000, 0x203f), 0x203f, HazardKind::WriteAfterWrite),
    ];
    for (later, address, kind) in &rows {
        let list = [(0x1000, 0x2000), *later];
        let fences = [needed(1, 0, 1, *address, *kind)];
        assert!(rt; has_fences(rt.alloc(), &list, &[&[false, true]], &fences)?);
    }
    Ok(())
}

/// The last of three moves reads what the first writes, and the second is apart from both.
#[test]
fn fences_that_no_conflict_needs(rt: HostRuntime) -> Result<(), Fail> {
    let list = [(0x1000, 0x2000), (0x3000, 0x4000), (0x2000, 0x5000)];
    let read = HazardKind::ReadAfterWrite;
    let rows: [(&[bool], &[Fence]); 3] = [
        (&[false, true, false], &[needed(1, 0, 2, 0x2000, read)]),
        (&[false, false, true], &[needed(2, 0, 2, 0x2000, read)]),
        (&[false, true, true], &[idle(1), idle(2)]),
    ];
    for (group, fences) in rows {
        assert!(rt; has_fences(rt.alloc(), &list, &[group], fences)?);
    }
    Ok(())
}

/// The third move reads what the second writes, and the last what the first writes: the fence separates both.
#[test]
fn the_first_conflict_after_a_fence(rt: HostRuntime) -> Result<(), Fail> {
    let list = [
        (0x1000, 0x2000),
        (0x3000, 0x4000),
        (0x4000, 0x5000),
        (0x2000, 0x6000),
    ];
    let first = needed(2, 1, 2, 0x4000, HazardKind::ReadAfterWrite);
    let fences = [Fence { more: 1, ..first }];
    assert!(rt; has_fences(rt.alloc(), &list, &[&[false, false, true, false]], &fences)?);
    Ok(())
}

/// Each move reads what the one before it writes.
const CHAIN: [(u64, u64); 4] = [
    (0x1000, 0x2000),
    (0x2000, 0x3000),
    (0x3000, 0x4000),
    (0x4000, 0x5000),
];

fn cell(row: usize, column: usize, fenced: bool) -> Cell {
    Cell {
        row,
        column,
        fenced,
    }
}

#[test]
fn fences_of_two_groups(rt: HostRuntime) -> Result<(), Fail> {
    group_costs_add_up();
    each_fence_once();
    cells_are_pieces_and_fences();
    let read = HazardKind::ReadAfterWrite;
    match explained(rt.alloc(), &CHAIN, &[&[false, true], &[false, true]])? {
        Ok(explanation) => {
            let fences = [needed(1, 0, 1, 0x2000, read), needed(3, 2, 3, 0x4000, read)];
            assert!(rt; are_fences(rt.alloc(), &explanation, &fences)?);
            let cells = [
                cell(0, 0, false),
                cell(0, 1, true),
                cell(1, 0, false),
                cell(1, 1, true),
            ];
            assert!(rt; explanation.cells.as_slice() == cells.as_slice());
        }
        Err(fault) => assert!(rt; false, "{fault:?}"),
    }
    Ok(())
}

fn group(size: usize, fences: usize, cost: u64) -> GroupCost {
    GroupCost { size, fences, cost }
}

/// A lone move costs 10; a batch of three with two fences 14 and twice 3.
#[test]
fn costs_of_groups(rt: HostRuntime) -> Result<(), Fail> {
    match explained(rt.alloc(), &CHAIN, &[&[false], &[false, true, true]])? {
        Ok(explanation) => {
            let costs = &explanation.costs;
            let groups = [group(1, 0, 10), group(3, 2, 20)];
            assert!(rt; costs.groups.as_slice() == groups.as_slice());
            assert!(rt; (costs.cost, costs.lone) == (30, 40));
        }
        Err(fault) => assert!(rt; false, "{fault:?}"),
    }
    Ok(())
}

#[test]
fn plans_that_are_not_legal(rt: HostRuntime) -> Result<(), Fail> {
    let rows: [(&[&[bool]], LegalFault); 4] = [
        (&[&[false, true]], LegalFault::Count),
        (&[&[false, true, true], &[true]], LegalFault::FirstFence(1)),
        (&[&[], &[false, true, true, true]], LegalFault::GroupSize(0)),
        (
            &[&[false, true], &[false, false]],
            LegalFault::Unfenced(2, 3),
        ),
    ];
    for (groups, fault) in rows {
        let answer = explained(rt.alloc(), &CHAIN, groups)?;
        assert_eq!(rt; answer.err(), Some(ExplainFault::Legal(fault)));
    }
    Ok(())
}

/// So many moves between the same places.
fn copies(alloc: Global, count: usize) -> Result<Vec<Descriptor>, Fail> {
    let piece = Descriptor::read(&move_of(0x1000, 0x2000, 0x8000))?;
    let mut pieces = Vec::new(alloc);
    for _ in 0..count {
        pieces.push(piece)?;
    }
    Ok(pieces)
}

/// The empty plan has too few pieces, which is reported only if there are not too many.
#[test]
fn at_most_65536_pieces(rt: HostRuntime) -> Result<(), Fail> {
    let (alloc, settings) = (rt.alloc(), settings()?);
    let plan = plan_of(alloc, &[])?;
    let most = operations_of(alloc, &copies(alloc, MOST_PIECES)?)?;
    assert_eq!(rt;
        explain(alloc, &plan, &most, [].as_slice(), &settings, Detail::First).err(),
        Some(ExplainFault::Legal(LegalFault::Count))
    );
    let more = operations_of(alloc, &copies(alloc, MOST_PIECES + 1)?)?;
    assert_eq!(rt;
        explain(alloc, &plan, &more, [].as_slice(), &settings, Detail::First).err(),
        Some(ExplainFault::TooManyPieces)
    );
    Ok(())
}

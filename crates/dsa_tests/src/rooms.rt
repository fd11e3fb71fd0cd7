//! Traces, rooms and parcels of small lists.

ghost use Rattle.std.specs.Prelude.{◌≡◌, IfOk};

use crate::given::{can_run, descriptor, put};
use dsa_core::{
    CoreFault, Event, Finished, Kind, Lined, Outcome, Parcel, Room, Stale, Taken, replay,
};
use dsa_descriptor::{Descriptor, Record};
use dsa_image::Image;
use dsa_plan::{Group, Plan};
use std::alloc::Global;
use std::process::Abort;
use std::test::Fail;

/// Two moves of 8 bytes, from 0 to 0x20 and from `second` to 0x60.
fn moves(second: u64) -> Result<[Descriptor; 2], Fail> {
    Ok([
        descriptor(3, 0x0c, 0x80, 8, [0, 0x20, 0])?,
        descriptor(3, 0x0c, 0xa0, 8, [second, 0x60, 0])?,
    ])
}

/// The image of these bytes.
fn image_of(base: u64, bytes: Vec<u8>) -> Result<Image, Fail> {
    match Image::new(base, bytes) {
        Ok(image) => Ok(image),
        Err(_) => Err(Fail::new("no image")),
    }
}

/// 192 bytes: `first` to 8 at 0, 0x11 to 0x18 at 0x40, else zero.
fn sources(alloc: Global, first: u8) -> Result<Vec<u8>, Fail> {
    let mut bytes = vec![in alloc; 0; 192]?;
    put(&mut bytes, 0, &[first, 2, 3, 4, 5, 6, 7, 8]);
    put(
        &mut bytes,
        0x40,
        &[0x11, 0x12, 0x13, 0x14, 0x15, 0x16, 0x17, 0x18],
    );
    Ok(bytes)
}

/// The same after both moves.
fn copied(alloc: Global) -> Result<Vec<u8>, Fail> {
    let mut bytes = sources(alloc, 1)?;
    put(&mut bytes, 0x20, &[1, 2, 3, 4, 5, 6, 7, 8]);
    put(
        &mut bytes,
        0x60,
        &[0x11, 0x12, 0x13, 0x14, 0x15, 0x16, 0x17, 0x18],
    );
    put(&mut bytes, 0x80, &[1]);
    put(&mut bytes, 0xa0, &[1]);
    Ok(bytes)
}

/// A plan of one group.
fn plan_of(alloc: Global, flags: &[bool]) -> Result<Plan, Fail> {
    let mut groups = Vec::new(alloc);
    groups.push(Group::new(Vec::from_slice(alloc, flags)?))?;
    Ok(Plan::new(groups))
}

fn event(engine: u8, kind: Kind, piece: u32) -> Event {
    Event {
        engine,
        kind,
        piece,
    }
}

/// The events of two engines that take turns: each takes, works and finishes the piece of its own number.
fn trace_of(alloc: Global, turns: &[u8]) -> Result<Vec<Event>, Fail> {
    let mut trace = Vec::new(alloc);
    let mut counts = (0u8, 0u8);
    for turn in turns {
        let count = if *turn == 0 { counts.0 } else { counts.1 };
        let kind = match count {
            0 => Kind::Take,
            1 => Kind::Line,
            _ => Kind::Finish,
        };
        if *turn == 0 {
            counts.0 = counts.0.saturating_add(1);
        } else {
            counts.1 = counts.1.saturating_add(1);
        }
        trace.push(event(*turn, kind, u32::from(*turn)))?;
    }
    Ok(trace)
}

/// A room of the two moves and two engines, of which engine 0 has taken a piece.
fn taken_room<R: Abort>(rt: &R, alloc: Global, first: u8) -> Result<Room, Fail>
    ensures { IfOk result (λ r. r.engines ≡ 2) }
{
    let pieces = moves(0x40)?;
    let image = image_of(0, sources(alloc, first)?)?;
    let plan = plan_of(alloc, &[false, false])?;
    assert!(rt; can_run(&image, &plan, &pieces, 2));
    let Ok(mut room) = Room::new(alloc, &image, &plan, &pieces, 2) else {
        return Err(Fail::new("no room"));
    };
    assert!(rt; room.take(0) == Taken::Piece(0));
    Ok(room)
}

/// The parcel of engine 0's next line.
fn fetched(room: &Room) -> Result<Parcel, Fail> {
    match room.fetch(0) {
        Some(parcel) => Ok(parcel),
        None => Err(Fail::new("no parcel")),
    }
}

#[test]
fn unworked_parcels_are_stale(rt: HostRuntime) -> Result<(), Fail> {
    let mut room = taken_room(&rt, rt.alloc(), 1)?;
    let parcel = fetched(&room)?;
    assert!(rt; room.commit(&parcel) == Err(Stale));
    let mut again = fetched(&room)?;
    again.work();
    assert!(rt; room.commit(&again) == Ok(()));
    Ok(())
}

#[test]
fn parcels_are_used_once(rt: HostRuntime) -> Result<(), Fail> {
    let mut room = taken_room(&rt, rt.alloc(), 1)?;
    let mut parcel = fetched(&room)?;
    parcel.work();
    assert!(rt; room.commit(&parcel) == Ok(()));
    assert!(rt; room.commit(&parcel) == Err(Stale));
    assert!(rt; room.line(0) == Lined::Full);
    assert!(rt; room.fetch(0).is_none());
    Ok(())
}

#[test]
fn parcels_of_another_image_are_stale(rt: HostRuntime) -> Result<(), Fail> {
    let room = taken_room(&rt, rt.alloc(), 1)?;
    let mut other = taken_room(&rt, rt.alloc(), 9)?;
    let mut parcel = fetched(&room)?;
    parcel.work();
    let answers = (other.commit(&parcel), other.line(0));
    assert!(rt; answers == (Err(Stale), Lined::Moved));
    Ok(())
}

#[test]
fn halted_rooms_take_no_parcels(rt: HostRuntime) -> Result<(), Fail> {
    let mut room = taken_room(&rt, rt.alloc(), 1)?;
    let mut parcel = fetched(&room)?;
    parcel.work();
    room.halt();
    assert!(rt; room.commit(&parcel) == Err(Stale));
    assert!(rt; room.fetch(0).is_none());
    Ok(())
}

/// The room of the two moves, halted after so many events of engines that take both pieces before either is finished.
fn halted_after<R: Abort>(rt: &R, alloc: Global, count: usize) -> Result<Room, Fail> {
    let pieces = moves(0x40)?;
    let image = image_of(0, sources(alloc, 1)?)?;
    let plan = plan_of(alloc, &[false, false])?;
    assert!(rt; can_run(&image, &plan, &pieces, 2));
    let Ok(mut room) = Room::new(alloc, &image, &plan, &pieces, 2) else {
        return Err(Fail::new("no room"));
    };
    let trace = trace_of(alloc, &[0, 1, 1, 1, 0, 0])?;
    assert!(rt; steps_of(&mut room, &trace[..count.min(trace.len())]) == count);
    room.halt();
    Ok(room)
}

/// Whether a halted room answers an engine as it has to, which has this piece or none.
fn refuses(room: &mut Room, engine: u8, piece: Option<u32>) -> bool {
    if engine >= room.engines() {
        return false;
    }
    let taken = match piece {
        Some(own) => Taken::Holding(own),
        None => Taken::Over,
    };
    room.take(engine) == taken
        && room.line(engine) == Lined::Halted
        && room.finish(engine) == Finished::Halted
        && room.fetch(engine).is_none()
}

/// How many of the events a room takes.
fn steps_of(room: &mut Room, events: &[Event]) -> usize {
    let mut count = 0usize;
    for event in events {
        count = count.saturating_add(usize::from(room.step(*event)));
    }
    count
}

/// For the room halted after so many events: whether it answers both engines, which have these pieces, as it has to,
/// how many more events it takes, whether it is over, and whether it has an outcome.
fn ends<R: Abort>(
    rt: &R,
    alloc: Global,
    count: usize,
    pieces: (Option<u32>, Option<u32>),
) -> Result<(bool, usize, bool, bool), Fail> {
    let mut room = halted_after(rt, alloc, count)?;
    let refused = refuses(&mut room, 0, pieces.0) && refuses(&mut room, 1, pieces.1);
    let stepped = steps_of(&mut room, &trace_of(alloc, &[0, 1, 1, 1, 0, 0])?);
    let is_over = room.is_over();
    Ok((refused, stepped, is_over, room.into_outcome().is_ok()))
}

#[test]
fn rooms_halted_at_each_moment_refuse(rt: HostRuntime) -> Result<(), Fail> {
    for (count, first, second) in [
        (0, None, None),
        (1, Some(0), None),
        (2, Some(0), Some(1)),
        (3, Some(0), Some(1)),
        (4, Some(0), None),
        (5, Some(0), None),
        (6, None, None),
    ] {
        let is_done = count == 6;
        assert!(rt; ends(&rt, rt.alloc(), count, (first, second))? == (true, 0, is_done, is_done));
    }
    Ok(())
}

/// Whether the room is of the two moves, of the image whose first byte is this, and of so many engines.
fn is_room_of(room: &Room, alloc: Global, first: u8, engines: u8) -> Result<bool, Fail> {
    let image = image_of(0, sources(alloc, first)?)?;
    let plan = plan_of(alloc, &[false, false])?;
    Ok(room.is_of(&image, &plan, &moves(0x40)?, engines))
}

#[test]
fn rooms_know_what_they_were_given(rt: HostRuntime) -> Result<(), Fail> {
    let room = taken_room(&rt, rt.alloc(), 1)?;
    let of_these = is_room_of(&room, rt.alloc(), 1, 2)?;
    let of_another_image = is_room_of(&room, rt.alloc(), 9, 2)?;
    let of_more_engines = is_room_of(&room, rt.alloc(), 1, 3)?;
    assert!(rt; (of_these, of_another_image, of_more_engines) == (true, false, false));
    Ok(())
}

/// Does engine 0's piece to its end.
fn do_piece<R: Abort>(rt: &R, room: &mut Room)
    requires { room.old.engines ≡ 2 }
    ensures { room.new.engines ≡ 2 }
{
    let done = Record {
        status: 1,
        result: 0,
        bytes_completed: 0,
    };
    assert!(rt; room.finish(0) == Finished::Early);
    assert!(rt; room.line(0) == Lined::Moved);
    assert!(rt; room.finish(0) == Finished::Record(done));
    assert!(rt; room.finish(0) == Finished::Idle);
}

#[test]
fn one_engine_does_all(rt: HostRuntime) -> Result<(), Fail> {
    let mut room = taken_room(&rt, rt.alloc(), 1)?;
    do_piece(&rt, &mut room);
    assert!(rt; room.take(0) == Taken::Piece(1));
    assert!(rt; room.take(1) == Taken::Wait);
    do_piece(&rt, &mut room);
    assert!(rt; room.is_over());
    assert!(rt; room.take(0) == Taken::Over);
    let Ok(outcome) = room.into_outcome() else {
        return Err(Fail::new("unfinished"));
    };
    assert!(rt; outcome.image.bytes() == copied(rt.alloc())?.as_slice());
    Ok(())
}

/// A plan of so many lone pieces.
fn lone_pieces(alloc: Global, count: usize) -> Result<Plan, Fail> {
    let mut groups = Vec::new(alloc);
    for _piece in 0..count {
        groups.push(Group::new(Vec::from_slice(alloc, &[false])?))?;
    }
    Ok(Plan::new(groups))
}

/// So many fills of 2,048 lines, with records one after the other.
fn long_fills(alloc: Global, count: u16) -> Result<Vec<Descriptor>, Fail> {
    let mut fills = Vec::new(alloc);
    for place in 0..count {
        let record_at = 0x80_0000 + 32 * u64::from(place);
        fills.push(descriptor(4, 0x0c, record_at, 0x80_0000, [0, 0, 0])?)?;
    }
    Ok(fills)
}

/// 2,047 fills have 4,196,350 events, and one fill less has 4,194,300.
#[test]
fn long_runs_are_refused(rt: HostRuntime) -> Result<(), Fail> {
    let image = image_of(0, vec![in rt.alloc(); 0; 0x100_0000]?)?;
    for (count, fault) in [(2046, None), (2047, Some(CoreFault::TooLong))] {
        let fills = long_fills(rt.alloc(), count)?;
        let pieces = fills.as_slice();
        let plan = lone_pieces(rt.alloc(), pieces.len())?;
        assert!(rt; can_run(&image, &plan, pieces, 1));
        let room = Room::new(rt.alloc(), &image, &plan, pieces, 1);
        assert!(rt; room.err() == fault, "{count}");
    }
    Ok(())
}

use crate::given::descriptor_bytes;
use dsa_conflicts::{Sweep, last_conflicts};
use dsa_descriptor::Descriptor;
use std::test::Fail;

/// The code of a move.
const MOVE: u8 = 3;

/// Three moves, the third of which writes what both others read: the later of the two is its last conflict.
fn two_readers() -> Result<[Descriptor; 3], Fail> {
    Ok([
        Descriptor::read(&descriptor_bytes(MOVE, 0x8000, 0x1000, 0x2000, 0, 64))?,
        Descriptor::read(&descriptor_bytes(MOVE, 0x8020, 0x1000, 0x3000, 0, 64))?,
        Descriptor::read(&descriptor_bytes(MOVE, 0x8040, 0x4000, 0x1020, 0, 8))?,
    ])
}

#[test]
fn last_of_two_readers(rt: HostRuntime) -> Result<(), Fail> {
    let lasts = last_conflicts(rt.alloc(), &two_readers()?, 3)?;
    assert!(rt; lasts.as_slice() == [None, None, Some(1)].as_slice());
    Ok(())
}

#[test]
fn a_sweep_finds_the_last_of_two_readers(rt: HostRuntime) -> Result<(), Fail> {
    let [first, second, third] = two_readers()?;
    let (sweep, of_first) = Sweep::new(rt.alloc()).add(&first)?;
    let (sweep, of_second) = sweep.add(&second)?;
    let (_, of_third) = sweep.add(&third)?;
    assert!(rt; (of_first, of_second, of_third) == (None, None, Some(1)));
    Ok(())
}

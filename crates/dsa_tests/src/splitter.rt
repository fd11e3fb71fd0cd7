use crate::given::descriptor;
use dsa_descriptor::{Descriptor, FieldFault};
use dsa_image::Image;
use dsa_plan::{Settings, SettingsFault};
use dsa_splitter::{SplitFault, pieces};
use std::alloc::Global;
use std::test::Fail;

fn a_move(src: u64, dst: u64, size: u32, record_at: u64) -> Result<Descriptor, FieldFault> {
    descriptor(3, 0x0c, record_at, size, [src, dst, 0])
}

fn settings(greatest_transfer: u64) -> Result<Settings, SettingsFault> {
    Settings::new(4, greatest_transfer, 10, 14, 3, 65536)
}

#[test]
fn the_most_pieces(rt: HostRuntime) -> Result<(), Fail> {
    let list = [a_move(0x100_0000, 0x200_0000, 65536 * 64, 0x300_0000)?];
    let found = pieces(rt.alloc(), &list, &settings(64)?)?;
    assert_eq!(rt; found.len(), 65536);
    Ok(())
}

/// Does the pieces of an operation in order, if the image has what they touch.
fn run_split(
    alloc: Global,
    image: &mut Image,
    d: &Descriptor,
    settings: &Settings,
) -> Result<bool, Fail> {
    let list = pieces(alloc, &[*d], settings)?;
    let parts = list.as_slice();
    match image.holds_all(parts) {
        Ok(()) => {
            image.execute_list(parts);
            Ok(true)
        }
        Err(_) => Ok(false),
    }
}

/// Does an operation at once, if the image has what it touches.
fn run_unsplit(image: &mut Image, d: &Descriptor) -> bool {
    match image.holds_all(&[*d]) {
        Ok(()) => {
            image.execute(d);
            true
        }
        Err(_) => false,
    }
}

#[test]
fn pieces_of_a_move_leave_what_it_leaves(rt: HostRuntime) -> Result<(), Fail> {
    let mut bytes = Vec::new(rt.alloc());
    for k in 0..0x7060u64 {
        bytes.push((k % 251) as u8)?;
    }
    let mut split = Image::new(0x1000, bytes)?;
    let mut unsplit = split.copy(rt.alloc())?;
    let d = a_move(0x1000, 0x1008, 10240, 0x8000)?;
    assert!(rt; run_split(rt.alloc(), &mut split, &d, &settings(4096)?)?);
    assert!(rt; run_unsplit(&mut unsplit, &d));
    for k in 0..10240u64 {
        assert_eq!(rt; split.read_byte(0x1008 + k), Some((k % 251) as u8));
    }
    for at in 0x1000..0x8000u64 {
        assert_eq!(rt; split.read_byte(at), unsplit.read_byte(at));
    }
    for record_at in [0x8000, 0x8020, 0x8040] {
        assert_eq!(rt; split.read_byte(record_at), Some(1));
    }
    Ok(())
}

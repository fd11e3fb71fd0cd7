use crate::given::{descriptor, put};
use dsa_descriptor::{Descriptor, FieldFault, Record, Span};
use dsa_image::{Image, Partial, lines};
use std::alloc::Global;
use std::test::Fail;

/// The bytes 0 to 0x301f with a delta record at 0x1000: entries of the offsets 0 to 255 and then of `last`, data 77.
fn delta_bytes(alloc: Global, last: u16) -> Result<Vec<u8>, Fail> {
    let mut bytes = vec![in alloc; 0; 0x3020]?;
    for i in 0..257 {
        let offset = if i < 256 { i as u16 } else { last };
        let place = 0x1000 + 10 * i;
        put(&mut bytes, place, &[0x77; 10]);
        put(&mut bytes, place, &offset.to_le_bytes());
    }
    Ok(bytes)
}

/// A delta of this many entries at 0x1000 to 2,048 bytes at 0x2000, record 0x3000.
fn delta(entries: u64) -> Result<Descriptor, FieldFault> {
    descriptor(
        8,
        0x0c,
        0x3000,
        2048,
        [
            0x1000,
            0x2000,
            if entries < 1000 { 10 * entries } else { 0 },
        ],
    )
}

/// The record of a status and nothing else.
fn plain(status: u8) -> Record {
    Record {
        status,
        result: 0,
        bytes_completed: 0,
    }
}

/// Executes a descriptor, if the image has its ranges.
fn run(image: &mut Image, d: &Descriptor) -> Option<Record> {
    if !image.holds_ranges(d) {
        return None;
    }
    Some(image.execute(d))
}

/// Executes descriptors, if the image has their ranges.
fn run_list(image: &mut Image, ds: &[Descriptor]) -> bool {
    match image.holds_all(ds) {
        Ok(()) => {
            image.execute_list(ds);
            true
        }
        Err(_) => false,
    }
}

/// Does a line, if the image has the ranges and the descriptor that line.
fn run_line(image: &mut Image, d: &Descriptor, k: u64, partial: &mut Partial) -> bool {
    if !image.holds_ranges(d) {
        return false;
    }
    if k >= lines(d) {
        return false;
    }
    image.line(d, k, partial);
    true
}

/// The same by way of the line's inputs and outputs, on two images whose inputs are equal.
fn run_by_inputs(
    image: &mut Image,
    other: &Image,
    d: &Descriptor,
    k: u64,
    partial: &mut Partial,
) -> bool {
    if !image.holds_ranges(d) {
        return false;
    }
    if !other.holds_ranges(d) {
        return false;
    }
    if k >= lines(d) {
        return false;
    }
    let inputs = image.gather(d, k, partial);
    if !inputs.equals(&other.gather(d, k, partial)) {
        return false;
    }
    let outputs = inputs.compute();
    image.store(&outputs, partial);
    true
}

#[test]
fn delta_that_fills_its_destination(rt: HostRuntime) -> Result<(), Fail> {
    let before = delta_bytes(rt.alloc(), 255)?;
    let mut image = Image::new(0, before.to_vec(rt.alloc())?)?;
    let d = delta(256)?;
    assert_eq!(rt; lines(&d), 2);
    assert!(rt; image.copy(rt.alloc())? == image);
    assert!(rt; run(&mut image, &d) == Some(plain(1)));
    let mut after = before;
    put(&mut after, 0x2000, &[0x77; 2048]);
    put(&mut after, 0x3000, &[1]);
    assert!(rt; image.bytes() == after.as_slice());
    assert!(rt; image.into_bytes() == after);
    Ok(())
}

#[test]
fn fill_in_two_pieces(rt: HostRuntime) -> Result<(), Fail> {
    let pattern = 0x0807060504030201;
    let pieces = [
        descriptor(4, 0x0c, 0x8000, 4096, [pattern, 0x2000, 0])?,
        descriptor(4, 0x0c, 0x8020, 4, [pattern, 0x3000, 0])?,
    ];
    let mut image = Image::new(0x2000, vec![in rt.alloc(); 0x55; 0x6040]?)?;
    assert!(rt; run_list(&mut image, &pieces));
    let first = [0x2000, 0x2fff].map(|at| image.read_byte(at));
    let second = [0x3000, 0x3003, 0x3004].map(|at| image.read_byte(at));
    let records = [0x8000, 0x8020].map(|at| image.read_byte(at));
    assert!(rt; first == [Some(1), Some(8)]);
    assert!(rt; second == [Some(1), Some(4), Some(0x55)]);
    assert!(rt; records == [Some(1), Some(1)]);
    Ok(())
}

#[test]
fn limits_of_images(rt: HostRuntime) -> Result<(), Fail> {
    let last = 0xffff_ffff_ffff_ffff;
    let wraps = Image::new(last, vec![in rt.alloc(); 9; 2]?).is_err();
    let is_too_long = Image::new(0, vec![in rt.alloc(); 0; 16_777_217]?).is_err();
    let image = Image::new(last, vec![in rt.alloc(); 9; 1]?)?;
    let read = (image.read_byte(last), image.read_byte(last - 1));
    let held = [(last, 1), (last, 2), (0, 0)].map(|(first, len)| image.holds(Span { first, len }));
    assert!(rt; (wraps, is_too_long, read) == (true, true, (Some(9), None)));
    assert!(rt; held == [true, false, true]);
    Ok(())
}

#[test]
fn lines_by_their_inputs(rt: HostRuntime) -> Result<(), Fail> {
    let whole = [
        descriptor(3, 0x0c, 0x3000, 6000, [0x1000, 0x1800, 0])?,
        descriptor(4, 0x0c, 0x3000, 5001, [0x0807060504030201, 0x1003, 0])?,
        descriptor(5, 0x0c, 0x3000, 4097, [0x1000, 0x1003, 0])?,
        delta(256)?,
        delta(257)?,
        descriptor(9, 0x0c, 0x3000, 100, [0x1800, 0x1000, 0x2000])?,
    ];
    for d in &whole {
        let mut image = Image::new(0, delta_bytes(rt.alloc(), 256)?)?;
        let mut other = image.copy(rt.alloc())?;
        let mut partial = Partial::default();
        let mut partial2 = Partial::default();
        for k in 0..lines(d) {
            assert!(rt; run_by_inputs(&mut other, &image, d, k, &mut partial2));
            assert!(rt; run_line(&mut image, d, k, &mut partial));
            assert!(rt; image == other);
            assert!(rt; partial == partial2);
        }
    }
    Ok(())
}

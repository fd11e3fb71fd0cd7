//! Operations in an image.

use crate::operation::BYTES;
use dsa_descriptor::Descriptor;
use dsa_image::Image;
use std::alloc::{AllocError, Global};
use std::io;
use std::time::{Duration, Instant};

/// The length of the image: 16 MiB, from address 0 on.
const IMAGE_LEN: usize = 16_777_216;
/// How often each is done.
const ROUNDS: u32 = 50;

/// An image whose bytes are all 1.
fn image_of_ones(alloc: Global) -> Result<Option<Image>, AllocError> {
    Ok(Image::new(0, vec![in alloc; 1; IMAGE_LEN]?).ok())
}

/// Does the operation, where the image has its addresses.
fn run_once(image: &mut Image, ds: &[Descriptor]) {
    if image.holds_all(ds).is_ok() {
        image.execute_list(ds);
    }
}

/// How long the operation takes in the image, in all rounds.
fn image_time(rt: &HostRuntime, image: &mut Image, ds: &[Descriptor]) -> io::Result<Duration> {
    let start = Instant::now(rt)?;
    for _ in 0..ROUNDS {
        run_once(image, ds);
    }
    start.elapsed(rt)
}

/// How long a plain copy takes, in all rounds.
fn copy_time(rt: &HostRuntime, to: &mut [u8], from: &[u8]) -> io::Result<Duration> {
    let start = Instant::now(rt)?;
    for _ in 0..ROUNDS {
        if to.len() == from.len() {
            to.copy_from_slice(from);
        }
    }
    start.elapsed(rt)
}

/// Bytes for each microsecond.
fn speed(time: Duration) -> u128 {
    u128::from(BYTES) * u128::from(ROUNDS) / time.as_micros().max(1)
}

/// How long an operation takes in an image of its own; none where it is no operation.
fn operation_time(rt: &HostRuntime, operation: &[u8; 64]) -> io::Result<Option<Duration>> {
    let Ok(d) = Descriptor::read(operation) else {
        return Ok(None);
    };
    match image_of_ones(rt.alloc())? {
        Some(mut image) => Ok(Some(image_time(rt, &mut image, &[d])?)),
        None => Ok(None),
    }
}

/// How long a plain copy of as many bytes takes.
fn plain_time(rt: &HostRuntime) -> io::Result<Duration> {
    let from = vec![in rt.alloc(); 1; BYTES as usize]?;
    let mut to = vec![in rt.alloc(); 0; BYTES as usize]?;
    copy_time(rt, to.as_mut_slice(), from.as_slice())
}

/// Measures the operation, and prints what was measured.
pub(crate) fn measure_operation(rt: &HostRuntime, operation: &[u8; 64]) -> io::Result<()> {
    let Some(in_image) = operation_time(rt, operation)? else {
        return Ok(());
    };
    let plain = plain_time(rt)?;
    println!(rt;
        "{} MB/s in the image, {} MB/s copied plainly",
        speed(in_image),
        speed(plain)
    )
}

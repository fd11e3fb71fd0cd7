//! Texts of jobs, slow readers and narrow writers. What the program answers is in `tests/jobs.py` and `tests/jobs`.

use dsa_report::{Job, PlanFault, Served, read_job, serve};
use std::io;
use std::io::{ErrorKind, Read, Write};

/// Judges one batch of two moves, the second of which reads what the first writes and is fenced.
const JUDGE: &[u8] =
    b"{\"do\":\"judge\",\"list\":\"000000000c0000030080000000000000001000000000000000200000000000004000000000000000000000000000000000000000000000000000000000000000000000000c0000032080000000000000002000000000000000400000000000004000000000000000000000000000000000000000000000000000000000000000\",\"plan\":[[false,true]],\"settings\":{\"version\":1,\"greatest_batch\":4,\"greatest_transfer\":4096,\"lone\":10,\"batch\":14,\"fence\":3,\"staging\":65536}}";

#[test]
fn reads_a_job(rt: HostRuntime) {
    let alloc = rt.alloc();
    match &read_job(alloc, JUDGE) {
        Ok(Job::Judge(job)) => assert_eq!(rt; job.list.len(), 128),
        _ => assert!(rt; false),
    }
    assert!(rt; matches!(read_job(alloc, b"{"), Err(PlanFault::Json)));
    assert!(rt; matches!(read_job(alloc, b"\"judge\""), Err(PlanFault::Member)));
}

/// Gives so many blanks, one a turn. It fails if more than 65,536 are asked for.
#[derive(Drop)]
struct Blanks {
    left: usize,
}

impl Read for Blanks {
    fn read(&mut self, buf: &mut [u8]) -> io::Result<usize> {
        if buf.len() > 65_536 {
            return Err(io::Error::from(ErrorKind::InvalidInput));
        }
        let count = buf.len().min(1).min(self.left);
        for byte in &mut buf[..count] {
            *byte = b' ';
        }
        self.left -= count;
        Ok(count)
    }
}

#[test]
fn counts_turns(rt: HostRuntime) {
    for (blanks, wanted) in [(1_048_575, Served::Refused), (1_048_576, Served::ReadFault)] {
        let mut reader = Blanks { left: blanks };
        let mut written = Vec::new(rt.alloc());
        assert!(rt; serve(&rt, &mut reader, &mut written) == wanted);
        assert_eq!(rt; written.is_empty(), wanted == Served::ReadFault);
    }
}

/// Takes one byte a turn, and fails if there is no room, but not again.
#[derive(Drop)]
struct Narrow {
    taken: Vec<u8>,
    room: usize,
    is_silent: bool,
}

impl Write for Narrow {
    fn write(&mut self, buf: &[u8]) -> io::Result<usize> {
        if self.room == 0 {
            self.room = usize::MAX;
            return if self.is_silent {
                Ok(0)
            } else {
                Err(io::Error::from(ErrorKind::Interrupted))
            };
        }
        let count = buf.len().min(1);
        self.taken.extend_from_slice(&buf[..count])?;
        self.room -= count;
        Ok(count)
    }

    fn flush(&mut self) -> io::Result<()> {
        Ok(())
    }
}

#[test]
fn writes_in_pieces(rt: HostRuntime) {
    let line = b"{\"cost\":17}\n";
    for is_silent in [false, true] {
        for room in 0..=line.len() {
            let mut reader = JUDGE;
            let mut writer = Narrow {
                taken: Vec::new(rt.alloc()),
                room,
                is_silent,
            };
            let served = serve(&rt, &mut reader, &mut writer);
            let wanted = if room == line.len() {
                Served::Answered
            } else {
                Served::WriteFault
            };
            assert!(rt; served == wanted);
            assert_eq!(rt; &writer.taken[..], &line[..room]);
        }
    }
}

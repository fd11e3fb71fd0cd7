use dsa_descriptor::{Descriptor, FieldFault, Op};
use dsa_lines::{
    Expected, LineFault, canonical_line_spells, line_bytes, line_of, one_line_no_newline,
    one_line_one_operation, parse_line, spells_one,
};
use dsa_operations::Operation;
use std::test::Fail;

/// A move of 64 bytes from 0x1000 to 0x2000, record 0x8000.
const A: [u8; 64] = [
    0x00, 0x00, 0x00, 0x00, 0x0c, 0x00, 0x00, 0x03, 0x00, 0x80, 0x00, 0x00, 0x00, 0x00, 0x00, 0x00,
    0x00, 0x10, 0x00, 0x00, 0x00, 0x00, 0x00, 0x00, 0x00, 0x20, 0x00, 0x00, 0x00, 0x00, 0x00, 0x00,
    0x40, 0x00, 0x00, 0x00, 0x00, 0x00, 0x00, 0x00, 0x00, 0x00, 0x00, 0x00, 0x00, 0x00, 0x00, 0x00,
    0x00, 0x00, 0x00, 0x00, 0x00, 0x00, 0x00, 0x00, 0x00, 0x00, 0x00, 0x00, 0x00, 0x00, 0x00, 0x00,
];

/// The descriptor that a line spells.
fn descriptor_of(line: &[u8]) -> Result<Descriptor, LineFault> {
    match parse_line(line) {
        Ok(Operation::Descriptor(d)) => Ok(d),
        Ok(Operation::Checksum(_)) => Err(LineFault::Field(FieldFault::Opcode)),
        Err(fault) => Err(fault),
    }
}

/// The samples of the text form.
#[test]
fn samples(rt: HostRuntime) {
    match descriptor_of(b"move 0x1000 -> 0x2000, 64 bytes, record 0x8000") {
        Ok(d) => assert_eq!(rt; d.write().as_slice(), A.as_slice()),
        Err(fault) => assert!(rt; false, "{fault:?}"),
    }
    let commented =
        b"move 0x2000 -> 0x4000, 64 bytes, record 0x8020      # reads what the first writes";
    match descriptor_of(commented.as_slice()) {
        Ok(d) => {
            assert!(rt;
                d.op == Op::Move {
                    src: 0x2000,
                    dst: 0x4000
                }
            );
            assert_eq!(rt; d.record_at, 0x8020);
        }
        Err(fault) => assert!(rt; false, "{fault:?}"),
    }
    match parse_line(b"\t move 4096->0x2000,64 bytes".as_slice()) {
        Ok(_) => assert!(rt; false, "read with no record"),
        Err(fault) => assert_eq!(rt; fault, LineFault::Grammar(8, Expected::Number)),
    }
    match parse_line(b" move\t4096 -> 0X2000 , 64 bytes,record 32768".as_slice()) {
        Ok(_) => assert!(rt; false, "read 0X"),
        Err(fault) => assert_eq!(rt; fault, LineFault::Grammar(15, Expected::Number)),
    }
    match descriptor_of(
        b" move\t4096 -> 0x2000 , 0x40 bytes,record 32768, pasid 0xAb# end".as_slice(),
    ) {
        Ok(d) => {
            assert_eq!(rt; d.pasid, 171);
            assert_eq!(rt; &d.write()[4..], &A[4..]);
        }
        Err(fault) => assert!(rt; false, "{fault:?}"),
    }
}

/// Where each line leaves the grammar, and what was expected there.
#[test]
fn refusals(rt: HostRuntime) {
    let refusals = [
        (b"".as_slice(), 1, Expected::Operation),
        (
            b"# move 0x1000 -> 0x2000".as_slice(),
            1,
            Expected::Operation,
        ),
        (
            b"copy 1 -> 2, 64 bytes, record 0x8000".as_slice(),
            1,
            Expected::Operation,
        ),
        (
            b"move 0x1000 -> 0x2000 64 bytes, record 0x8000".as_slice(),
            23,
            Expected::Comma,
        ),
        (
            b"move +4096 -> 0x2000, 64 bytes, record 0x8000".as_slice(),
            6,
            Expected::Number,
        ),
        (
            b"move 0x -> 0x2000, 64 bytes, record 0x8000".as_slice(),
            6,
            Expected::Number,
        ),
        (
            b"move 18446744073709551616 -> 0, 64 bytes".as_slice(),
            6,
            Expected::Number,
        ),
        (
            b"move 0 -> 0x2000, 4294967296 bytes, record 0".as_slice(),
            19,
            Expected::Size,
        ),
        (
            b"fill 0 with 01020304050607, 8 bytes".as_slice(),
            13,
            Expected::Pattern,
        ),
        (
            b"compare 1 with patern 0102030405060708, 8 bytes".as_slice(),
            16,
            Expected::NumberOrPattern,
        ),
        (
            b"compare 1 with pattern 2, 8 bytes, expect 0, record 32".as_slice(),
            24,
            Expected::Pattern,
        ),
        (
            b"move 1 -> 2, 3 bytes, record 32 pasid 1".as_slice(),
            33,
            Expected::CommaOrEnd,
        ),
        (
            b"move 1 -> 2, 3 bytes, record 4, pasid 0x100000".as_slice(),
            39,
            Expected::Pasid,
        ),
        (
            b"move 1 -> 2, 3 bytes, record 4, pasid 1, pasid 1".as_slice(),
            42,
            Expected::Option,
        ),
        (
            b"move 1 -> 2, 3 bytes, record 4, flags 4".as_slice(),
            39,
            Expected::Flags,
        ),
        (
            b"move 1 -> 2, 3 bytes, record 4, handle 65536".as_slice(),
            40,
            Expected::Handle,
        ),
        (
            b"move 1 -> 2, 3 bytes, record 4,".as_slice(),
            32,
            Expected::Option,
        ),
        (
            b"move 1 -> 2,\n3 bytes, record 32".as_slice(),
            13,
            Expected::Size,
        ),
        (
            b"move 1 -> 2, 3 bytes, record 32\n".as_slice(),
            32,
            Expected::CommaOrEnd,
        ),
        (
            b"move 1 -> 2, 3 bytes, record 32 # all\nmove 1 -> 2, 3 bytes, record 32".as_slice(),
            33,
            Expected::CommaOrEnd,
        ),
        (b"# none\n".as_slice(), 1, Expected::Operation),
    ];
    for (line, column, expected) in &refusals {
        let fault = LineFault::Grammar(*column, *expected);
        assert_eq!(rt; parse_line(line).err(), Some(fault));
    }
    assert_eq!(rt;
        Expected::NumberOrPattern.text(),
        "a number below 2^64, or pattern"
    );
    assert_eq!(rt;
        Expected::CommaOrEnd.text(),
        "a comma, or the end of the line"
    );
    assert_eq!(rt;
        parse_line(b"move 0x1000 -> 0x2000, 64 bytes, record 0x8010").err(),
        Some(LineFault::Field(FieldFault::RecordAlign))
    );
    assert_eq!(rt;
        parse_line(b"move 0x1000 -> 0x2000, 0 bytes, record 0x8000, check").err(),
        Some(LineFault::Field(FieldFault::FlagBits))
    );
}

/// Each operation, as its line is written and read.
#[test]
fn operations(rt: HostRuntime) {
    let lines = [
        (
            b"compare 0x10 with 0x4000, 8 bytes, expect 1, record 0x8000".as_slice(),
            Op::Compare {
                src: 0x10,
                src2: 0x4000,
                expected: 1,
            },
        ),
        (
            b"compare 0x10 with pattern 0102030405060708, 8 bytes, expect 0, record 0x8000".as_slice(),
            Op::ComparePattern {
                src: 0x10,
                pattern: 0x0807060504030201,
                expected: 0,
            },
        ),
        (
            b"fill 0x2000 with 01020304050607Ff, 4100 bytes, record 0x8000".as_slice(),
            Op::Fill {
                pattern: 0xff07060504030201,
                dst: 0x2000,
            },
        ),
        (
            b"delta 0x1000, 20 bytes -> 0x1040, 32 bytes, record 0x1080".as_slice(),
            Op::ApplyDelta {
                delta: 0x1000,
                dst: 0x1040,
                record_size: 20,
            },
        ),
        (
            b"dualcast 0x1000 -> 0x2000 and 0x3000, 16 bytes, record 0x8000, pasid 7".as_slice(),
            Op::Dualcast {
                src: 0x1000,
                dst: 0x2000,
                dst2: 0x3000,
            },
        ),
    ];
    for (line, op) in &lines {
        match descriptor_of(line) {
            Ok(d) => assert!(rt; d.op == *op),
            Err(fault) => assert!(rt; false, "{fault:?}"),
        }
    }
    assert_eq!(rt;
        parse_line(b"compare 0x10 with 0x4000, 8 bytes, expect 2, record 0x8000").err(),
        Some(LineFault::Grammar(43, Expected::Bit))
    );
    assert_eq!(rt;
        parse_line(b"dualcast 0x1000 -> 0x2000 and 0x3010, 16 bytes, record 0x8000").err(),
        Some(LineFault::Field(FieldFault::DualcastBits))
    );
}

/// Options may come in any order; what is written has the order of the grammar.
#[test]
fn options(rt: HostRuntime) -> Result<(), Fail> {
    spells_one();
    one_line_one_operation();
    one_line_no_newline();
    canonical_line_spells();
    let line =
        b"compare 1 with 2, 8 bytes, expect 1, record 0x20, handle 3, flags 0x102, check, privileged, pasid 7";
    match descriptor_of(line.as_slice()) {
        Ok(d) => {
            assert_eq!(rt; d.pasid, 7);
            assert!(rt; d.privileged);
            assert_eq!(rt; d.flags.0, 0x18e);
            assert_eq!(rt; d.int_handle, 3);
            let line = line_of(rt.alloc(), &Operation::Descriptor(d))?;
            assert_eq!(rt;
                line.as_str(),
                "compare 0x1 with 0x2, 8 bytes, expect 1, record 0x20, pasid 7, privileged, check, flags 258, handle 3"
            );
        }
        Err(fault) => assert!(rt; false, "{fault:?}"),
    }
    Ok(())
}

/// The canonical lines, as they are written by hand from the grammar.
#[test]
fn written(rt: HostRuntime) -> Result<(), Fail> {
    let lines = [
        "move 0x1000 -> 0x2000, 64 bytes, record 0x8000",
        "fill 0x2000 with 01020304050607ff, 4100 bytes, record 0x8000",
        "compare 0x10 with 0x4000, 8 bytes, expect 0, record 0x8000",
        "compare 0x10 with pattern 0102030405060708, 8 bytes, expect 1, record 0x8000, check",
        "delta 0x1000, 20 bytes -> 0x1040, 32 bytes, record 0x1080, pasid 1048575",
        "dualcast 0x1000 -> 0x2000 and 0x3000, 16 bytes, record 0x8000, flags 65314, handle 65535",
        "crc 0x1000, 4096 bytes, seed 0xffffffff, record 0x8000",
        "crc 0x1000, 4096 bytes, seed at 0x9010, record 0x8000, flags 393216",
        "copy_crc 0x1000 -> 0x2000, 4096 bytes, seed 0x0, record 0x8000, pasid 7, privileged, flags 131072",
    ];
    for line in &lines {
        match parse_line(line.as_bytes()) {
            Ok(operation) => {
                let again = line_of(rt.alloc(), &operation)?;
                assert_eq!(rt; again.as_str(), *line);
            }
            Err(fault) => assert!(rt; false, "{fault:?}"),
        }
    }
    assert!(rt; line_bytes(b" # nothing\r".as_slice()) == Ok(None));
    assert!(rt; line_bytes(b"\r\n".as_slice()) == Err((2, Expected::Operation)));
    assert!(rt; line_bytes(b"move".as_slice()) == Err((5, Expected::Number)));
    Ok(())
}

/// A checksum of 256 bytes at 0x1000 with the seed 0x04030201, record 0x8000.
const CRC: [u8; 64] = [
    0x00, 0x00, 0x00, 0x00, 0x0c, 0x00, 0x00, 0x10, 0x00, 0x80, 0x00, 0x00, 0x00, 0x00, 0x00, 0x00,
    0x00, 0x10, 0x00, 0x00, 0x00, 0x00, 0x00, 0x00, 0x00, 0x00, 0x00, 0x00, 0x00, 0x00, 0x00, 0x00,
    0x00, 0x01, 0x00, 0x00, 0x00, 0x00, 0x00, 0x00, 0x01, 0x02, 0x03, 0x04, 0x00, 0x00, 0x00, 0x00,
    0x00, 0x00, 0x00, 0x00, 0x00, 0x00, 0x00, 0x00, 0x00, 0x00, 0x00, 0x00, 0x00, 0x00, 0x00, 0x00,
];

/// A copy of them to 0x2000 with a checksum that goes on from the four bytes at 0x9010, neither inverted nor reflected.
const COPY_CRC: [u8; 64] = [
    0x00, 0x00, 0x00, 0x00, 0x0c, 0x00, 0x07, 0x11, 0x00, 0x80, 0x00, 0x00, 0x00, 0x00, 0x00, 0x00,
    0x00, 0x10, 0x00, 0x00, 0x00, 0x00, 0x00, 0x00, 0x00, 0x20, 0x00, 0x00, 0x00, 0x00, 0x00, 0x00,
    0x00, 0x01, 0x00, 0x00, 0x00, 0x00, 0x00, 0x00, 0x00, 0x00, 0x00, 0x00, 0x00, 0x00, 0x00, 0x00,
    0x10, 0x90, 0x00, 0x00, 0x00, 0x00, 0x00, 0x00, 0x00, 0x00, 0x00, 0x00, 0x00, 0x00, 0x00, 0x00,
];

/// The lines of checksums and their bytes; a seed that is left out is 0.
#[test]
fn checksums(rt: HostRuntime) {
    let given = b"crc 0x1000, 256 bytes, seed 0x04030201, record 0x8000";
    assert!(rt; line_bytes(given.as_slice()) == Ok(Some(CRC)));
    let copied =
        b"copy_crc 0x1000 -> 0x2000, 0x100 bytes,seed at 0x9010, record 0x8000, flags 0x60000";
    assert!(rt; line_bytes(copied.as_slice()) == Ok(Some(COPY_CRC)));
    let without = b"crc 4096, 256 bytes, record 0x8000";
    let zero = b"crc 4096, 256 bytes, seed 0, record 0x8000";
    assert!(rt; line_bytes(without.as_slice()) == line_bytes(zero.as_slice()));
    assert!(rt; line_bytes(without.as_slice()) != line_bytes(given.as_slice()));
    match parse_line(copied.as_slice()) {
        Ok(operation) => assert_eq!(rt; operation.write().as_slice(), COPY_CRC.as_slice()),
        Err(fault) => assert!(rt; false, "{fault:?}"),
    }
}

/// Where the line of a checksum leaves the grammar, and what of its fields no list may have.
#[test]
fn refused_checksums(rt: HostRuntime) {
    let refusals = [
        (
            b"crc 1, 8 bytes, seed , record 32".as_slice(),
            22,
            Expected::Seed,
        ),
        (
            b"crc 1, 8 bytes, seed 0x100000000, record 32".as_slice(),
            22,
            Expected::Seed,
        ),
        (
            b"crc 1, 8 bytes, seed at, record 32".as_slice(),
            24,
            Expected::Number,
        ),
        (
            b"crc 1, 8 bytes, sed 0, record 32".as_slice(),
            17,
            Expected::Record,
        ),
        (
            b"copy_crc 1, 8 bytes, record 32".as_slice(),
            11,
            Expected::Arrow,
        ),
        (
            b"crc 1, 8 bytes, record 32, flags 0x10000".as_slice(),
            34,
            Expected::Flags,
        ),
    ];
    for (line, column, expected) in &refusals {
        let fault = LineFault::Grammar(*column, *expected);
        assert_eq!(rt; parse_line(line).err(), Some(fault));
    }
    assert_eq!(rt; Expected::Seed.text(), "a number below 2^32, or at");
    let faults = [
        (
            b"crc 0x1000, 8 bytes, record 32, check".as_slice(),
            FieldFault::FlagBits,
        ),
        (
            b"move 0x1000 -> 0x2000, 8 bytes, record 32, flags 0x20000".as_slice(),
            FieldFault::FlagBits,
        ),
        (
            b"crc 0x1000, 0 bytes, record 32".as_slice(),
            FieldFault::SizeZero,
        ),
        (
            b"copy_crc 0x1000 -> 0x2000, 8 bytes, seed at 0x2004, record 32".as_slice(),
            FieldFault::Overlap,
        ),
    ];
    for (line, fault) in &faults {
        assert_eq!(rt; parse_line(line).err(), Some(LineFault::Field(*fault)));
    }
}

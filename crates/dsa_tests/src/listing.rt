use dsa_descriptor::{FieldFault, ListFault, write_entries};
use dsa_lines::{
    Expected, TextFault, assemble_recording, canonical_text_spells, disassemble,
    disassemble_portal, disassemble_staging, line_of_operation, one_text_one_list, parse_text,
    text_spells_one,
};
use std::alloc::Global;
use std::test::Fail;

/// Two moves, with a comment, an empty line and a line of blanks between.
const TEXT: &str = "# two moves\nmove 0x1000 -> 0x2000, 64 bytes, record 0x8000\n\n \t\n\
     move 0x2000 -> 0x4000, 64 bytes, record 0x8020 # reads it";

/// Their canonical text.
const CANONICAL: &str =
    "move 0x1000 -> 0x2000, 64 bytes, record 0x8000\nmove 0x2000 -> 0x4000, 64 bytes, record 0x8020\n";

/// A copy with a checksum, and after a barrier a checksum that goes on from where the first was put.
const CHECKSUMS: &str = "copy_crc 0x1000 -> 0x2000, 64 bytes, seed 0x0, record 0x8000\nbarrier\n\
     crc 0x2000, 64 bytes, seed at 0x8010, record 0x8020\n";

/// The same without the barrier, as text and as that of a staging area.
const WITHOUT_BARRIER: &str = "copy_crc 0x1000 -> 0x2000, 64 bytes, seed 0x0, record 0x8000\n\
     crc 0x2000, 64 bytes, seed at 0x8010, record 0x8020\n";

const STAGED: &str = "copy_crc 0x1000 -> 0x2000, 64 bytes, seed 0x0, record 0x8000\n\
     fence crc 0x2000, 64 bytes, seed at 0x8010, record 0x8020\n";

/// The bytes of the list that a text spells, with its barriers as fences.
fn assembled(alloc: Global, text: &str) -> Result<Vec<u8>, Fail> {
    match parse_text(alloc, text.as_bytes(), false) {
        Ok(read) => Ok(write_entries(alloc, &read.list.entries, &read.list.barriers)?),
        Err(_) => Err(Fail::new("no list")),
    }
}

/// The canonical text of a list.
fn disassembled(alloc: Global, list: &[u8], keep_fences: bool) -> Result<String, Fail> {
    match disassemble(alloc, list, keep_fences) {
        Ok(text) => Ok(text),
        Err(_) => Err(Fail::new("no text")),
    }
}

#[test]
fn there_and_back(rt: HostRuntime) -> Result<(), Fail> {
    text_spells_one();
    one_text_one_list();
    canonical_text_spells();
    let alloc = rt.alloc();
    let bytes = assembled(alloc, TEXT)?;
    for keep_fences in [false, true] {
        let text = disassembled(alloc, &bytes, keep_fences)?;
        assert!(rt; text.as_str() == CANONICAL);
    }
    assert_eq!(rt; assembled(alloc, "")?.len(), 0);
    assert_eq!(rt;
        assembled(alloc, "# a move\r\n\r\nmove 1 -> 2, 3 bytes, record 32\r\n")?.len(),
        64
    );
    Ok(())
}

/// A line that leaves the grammar comes before any fault of the list; a fault names the line of its operation.
#[test]
fn refusals(rt: HostRuntime) {
    let alloc = rt.alloc();
    let refusals = [
        (
            "\nmove 1 -> 2, 0 bytes, record 0\nmove 1\n",
            TextFault::Grammar(3, 7, Expected::Arrow),
        ),
        (
            "# none\nmove 0x1000 -> 0x2000, 64 bytes, record 0x8000\n\nmove 1 -> 2, 0 bytes, record 0\n",
            TextFault::List(4, ListFault::Field(1, FieldFault::SizeZero)),
        ),
        (
            "move 1 -> 2, 3 bytes, record 32\n\nmove 1 -> 2, 3 bytes, record 64, pasid 1",
            TextFault::List(3, ListFault::MixedPasid(1)),
        ),
        (
            "crc 0x1000, 64 bytes, record 0x8000\n\ncrc 0x1000, 64 bytes, record 0x8020, check\n",
            TextFault::List(3, ListFault::Field(1, FieldFault::FlagBits)),
        ),
        (
            "crc 0x1000, 64 bytes, record 0x8000\nmove 1 -> 2, 3 bytes, record 64, pasid 1",
            TextFault::List(2, ListFault::MixedPasid(1)),
        ),
        (
            "move 1 -> 2, 0 bytes, record 0\ncrc 0x1000, 64 bytes, seed\n",
            TextFault::Grammar(2, 27, Expected::Seed),
        ),
    ];
    for (text, fault) in &refusals {
        let read = parse_text(alloc, text.as_bytes(), false);
        assert_eq!(rt; read.map(|read| read.lines.len()).err(), Some(*fault));
    }
}

/// Checksums in lists, portals, staging areas and recordings.
#[test]
fn checksums(rt: HostRuntime) -> Result<(), Fail> {
    let alloc = rt.alloc();
    let bytes = assembled(alloc, WITHOUT_BARRIER)?;
    for keep_fences in [false, true] {
        let text = disassembled(alloc, &bytes, keep_fences)?;
        assert!(rt; text.as_str() == WITHOUT_BARRIER);
    }
    match disassemble_portal(alloc, &bytes) {
        Ok(text) => assert!(rt; text.as_str() == WITHOUT_BARRIER),
        Err(_) => assert!(rt; false, "no portal"),
    }
    match assemble_recording(alloc, WITHOUT_BARRIER.as_bytes()) {
        Ok(recorded) => assert_eq!(rt; recorded.as_slice(), bytes.as_slice()),
        Err(fault) => assert!(rt; false, "{fault:?}"),
    }
    Ok(())
}

/// Checksums after a barrier: the flag fence in the bytes, and `fence` in the text of a staging area.
#[test]
fn fenced_checksums(rt: HostRuntime) -> Result<(), Fail> {
    let alloc = rt.alloc();
    let bytes = assembled(alloc, CHECKSUMS)?;
    assert_eq!(rt; bytes.len(), 128);
    assert_eq!(rt; bytes[68], 0x0d);
    assert_eq!(rt; bytes[71], 0x10);
    let text = disassembled(alloc, &bytes, true)?;
    assert!(rt; text.as_str() == CHECKSUMS);
    match disassemble_staging(alloc, &bytes, 0x4000) {
        Ok(text) => assert!(rt; text.as_str() == STAGED),
        Err(_) => assert!(rt; false, "no staging area"),
    }
    match parse_text(alloc, STAGED.as_bytes(), true) {
        Ok(read) => {
            assert_eq!(rt; read.list.entries.len(), 2);
            assert!(rt; read.list.barriers.as_slice() == [false, true].as_slice());
            assert_eq!(rt; line_of_operation(&read.lines, 1), 2);
        }
        Err(fault) => assert!(rt; false, "{fault:?}"),
    }
    Ok(())
}

/// A list is refused for its first fault: an entry of another length, or one with a fence that is not kept.
#[test]
fn refused_lists(rt: HostRuntime) -> Result<(), Fail> {
    let alloc = rt.alloc();
    for keep_fences in [false, true] {
        assert_eq!(rt;
            disassemble(alloc, [0u8; 3].as_slice(), keep_fences).err(),
            Some(ListFault::Length)
        );
    }
    let fenced = assembled(alloc, CHECKSUMS)?;
    assert_eq!(rt;
        disassemble(alloc, &fenced, false).err(),
        Some(ListFault::Field(1, FieldFault::FlagBits))
    );
    Ok(())
}

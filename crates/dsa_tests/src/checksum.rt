//! Checksums, beside values that others have published or that are worked by hand.

use dsa_checksum::{Variant, checksum};

/// The variant with these bypasses: of inversion and reflection, and of reflection of the data.
fn variant(bypasses_inversion: bool, bypasses_data_reflection: bool) -> Variant {
    Variant {
        bypasses_inversion,
        bypasses_data_reflection,
    }
}

/// RFC 3720, appendix B.4, and the usual text of checks: the last has two parts.
#[test]
fn published_checksums(rt: HostRuntime) {
    let usual = variant(false, false);
    let rising: [u8; 32] = [
        0, 1, 2, 3, 4, 5, 6, 7, 8, 9, 10, 11, 12, 13, 14, 15, 16, 17, 18, 19, 20, 21, 22, 23, 24,
        25, 26, 27, 28, 29, 30, 31,
    ];
    let found = [
        checksum(usual, 0, b"123456789"),
        checksum(usual, 0, &[0; 32]),
        checksum(usual, 0, &[255; 32]),
        checksum(usual, 0, &rising),
        checksum(usual, checksum(usual, 0, b"1234"), b"56789"),
    ];
    assert_eq!(rt;
        found,
        [
            0xe306_9283,
            0x8a91_36aa,
            0x62a8_ab43,
            0x46dd_794e,
            0xe306_9283
        ]
    );
}

/// A byte of which the last coefficient alone is there leaves the polynomial, and one of zeros moves the seed by a
/// byte.
#[test]
fn variants(rt: HostRuntime) {
    let found = [
        checksum(variant(true, true), 0, &[0x01]),
        checksum(variant(true, false), 0, &[0x80]),
        checksum(variant(false, true), 0xffff_ffff, &[0x01]),
        checksum(variant(true, true), 0x12, &[0]),
        checksum(variant(true, true), 0x0100_0000, &[0]),
    ];
    assert_eq!(rt;
        found,
        [0x1edc_6f41, 0x1edc_6f41, !0x82f6_3b78, 0x1200, 0x1edc_6f41]
    );
}

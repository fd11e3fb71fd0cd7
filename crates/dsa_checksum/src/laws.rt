//! What the definitions promise of each other. Each function is a law: its body is empty, and its clause is what the
//! proof shows.

ghost use Rattle.dsa_checksum.specs.Laws.{ChecksumsGoOn, AreKnown};

/// The checksum of two parts is that of the second with the checksum of the first as its seed.
pub fn checksum_goes_on()
    ensures { ChecksumsGoOn }
{}

/// Checksums that are known from elsewhere.
pub fn known_checksums()
    ensures { AreKnown }
{}

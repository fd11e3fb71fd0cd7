//! What the definitions promise of each other. Each function is a law: its body is empty, and its clauses are what the
//! proof shows.

ghost use Rattle.std.specs.Prelude.{◌≡◌};
ghost use Rattle.dsa_operations.specs.Laws.{OneSpelling};
ghost use Rattle.dsa_operations.specs.Profile.{IsListedChecksum};
ghost use Rattle.dsa_operations.specs.Samples.{sample_copy, sample_copy_bytes, sample_given, sample_given_bytes, sample_in_memory, sample_in_memory_bytes};
ghost use Rattle.dsa_operations.specs.Spelling.{checksum_spelling};

/// Two operations with the same spelling are equal.
pub fn one_spelling()
    ensures { OneSpelling }
{}

/// The spelling, computed on a checksum with a given seed, on one with a seed in memory and on a copy.
#[tactic(auto, unfolding(crate::specs::Spelling::checksum_spelling))]
pub fn checksums_are_spelt()
    ensures given { checksum_spelling sample_given ≡ sample_given_bytes }
    ensures in_memory { checksum_spelling sample_in_memory ≡ sample_in_memory_bytes }
    ensures copied { checksum_spelling sample_copy ≡ sample_copy_bytes }
{}

/// The same three meet the profile.
pub fn checksums_are_listed()
    ensures given { IsListedChecksum sample_given }
    ensures in_memory { IsListedChecksum sample_in_memory }
    ensures copied { IsListedChecksum sample_copy }
{}

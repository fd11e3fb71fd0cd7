//! Why a value is not read as a certificate.

ghost use Rattle.std.specs.Prelude.{◌≡◌};
ghost use Rattle.dsa_cert.specs.declared.fault.CertFault.TheVariants.{Memory};

use std::alloc::{AllocError, AllocFailed};
use std::fmt;

/// Why a value is not read as a certificate.
#[derive(Clone, Copy)]
pub enum CertFault {
    /// The value is no certificate's document.
    Shape,
    /// There is no memory for the certificate.
    Memory,
}

/// Its name, without what it has.
impl fmt::Debug for CertFault {
    fn fmt<W: fmt::Write>(&self, f: &mut fmt::Formatter<W>) -> fmt::Result {
        f.write_str(match self {
            CertFault::Shape => "Shape",
            CertFault::Memory => "Memory",
        })
    }
}

impl From<AllocError> for CertFault {
    ghost from_gives = { λ _ fault. fault ≡ Memory };

    fn from(_error: AllocError) -> CertFault {
        CertFault::Memory
    }
}

impl<T: Drop> From<AllocFailed<T>> for CertFault {
    ghost from_gives = { λ _ fault. fault ≡ Memory };

    fn from(_error: AllocFailed<T>) -> CertFault {
        CertFault::Memory
    }
}

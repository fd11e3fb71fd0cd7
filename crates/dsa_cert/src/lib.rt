//! The document of a certificate in JSON.
#![tactic(auto)]

mod document;
mod fault;
mod members;
mod reading;

pub use document::{prices_of, read_json, write_json};
pub use dsa_plan::Certificate;
pub use fault::CertFault;
pub use reading::Document;

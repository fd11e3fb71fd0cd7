use dsa_cert::{Certificate, read_json, write_json};
use serde_json::Value;
use std::alloc::{AllocError, Global};
use std::test::Fail;

/// The document of the certificate of two conflicting moves in one batch.
const DOCUMENT: &str = "{\"pairs\":[[0,1],null],\"prices\":[0,10,17],\"version\":1}";

fn certificate(alloc: Global) -> Result<Certificate, AllocError> {
    Ok(Certificate {
        version: 1,
        prices: vec![in alloc; 0, 10, 17]?,
        pairs: vec![in alloc; Some((0, 1)), None]?,
    })
}

#[test]
fn written_and_read_again(rt: HostRuntime) -> Result<(), Fail> {
    let alloc = rt.alloc();
    let text = write_json(alloc, &certificate(alloc)?)?.to_string(alloc)?;
    assert!(rt; text.as_str() == DOCUMENT);
    let found = read_json(alloc, &Value::from_str(alloc, DOCUMENT)?)?;
    assert!(rt; found == certificate(alloc)?);
    Ok(())
}

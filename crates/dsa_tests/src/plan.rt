use crate::given::moves;
use dsa_descriptor::read_list;
use dsa_plan::{Settings, read_emission};
use std::test::Fail;

/// The version, greatest batch and transfer, the staging address, and the prices of a lone descriptor and of a fence.
fn values_of(settings: &Settings) -> [u64; 6] {
    [
        settings.version(),
        u64::from(settings.greatest_batch()),
        u64::from(settings.greatest_transfer()),
        settings.staging(),
        settings.lone(),
        settings.fence(),
    ]
}

#[test]
fn values_are_given_back(rt: HostRuntime) -> Result<(), Fail> {
    let settings = Settings::new(4, 4096, 10, 14, 3, 65536)?;
    let prices = (settings.price(2), settings.price(4));
    assert!(rt; (values_of(&settings), prices) == ([1, 4, 4096, 65536, 10, 3], (14, 14)));
    let by_size = Settings::with_table(4, 4096, 10, &[14, 16, 20], 3, 65536)?;
    let prices = (by_size.price(3), by_size.price(4));
    assert!(rt; (values_of(&by_size), prices) == ([2, 4, 4096, 65536, 10, 3], (16, 20)));
    assert!(rt; by_size.table() == Some([14, 16, 20].as_slice()));
    Ok(())
}

/// Two lone descriptors are their own portal.
#[test]
fn lone_descriptors_are_read_again(rt: HostRuntime) -> Result<(), Fail> {
    let alloc = rt.alloc();
    let list = moves(alloc, &[(0x1000, 0x2000), (0x2000, 0x4000)])?;
    let settings = Settings::new(4, 4096, 10, 14, 3, 65536)?;
    let pieces = read_list(alloc, &list)?;
    match read_emission(alloc, &list, &[], &settings) {
        Ok((plan, read)) => {
            assert_eq!(rt; plan.groups().len(), 2);
            assert!(rt; plan.groups()[1].fences() == [false].as_slice());
            assert!(rt; read.as_slice() == pieces.as_slice());
        }
        Err(fault) => assert!(rt; false, "{fault:?}"),
    }
    Ok(())
}

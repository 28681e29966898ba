//! How large a world may be.

use events::Config;
use proto::Fault;
use std::test::Fail;

#[test]
fn a_world_has_limits(rt: HostRuntime) -> Result<(), Fail> {
    let rows = [
        (0u8, 1u16, true),
        (3, 64, true),
        (4, 1, false),
        (255, 1, false),
        (0, 0, false),
        (3, 65, true),
        (3, 65535, true),
    ];
    for (u, clients, is_world) in rows {
        match Config::new(u, clients) {
            Ok(config) => {
                assert!(rt; is_world && config.u() == u && config.clients() == clients);
            }
            Err(fault) => assert!(rt; !is_world && fault == Fault::BadSchedule),
        }
    }
    Ok(())
}

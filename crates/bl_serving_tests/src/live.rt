//! What a server tells while it runs.
use bl_entrance::ended::{Ended, Why};
use bl_live::live::Live;
use bl_wire::watched::Watched;
use std::test::Fail;

/// The first session that ends for a cause is told at once, those within a minute by their number, and what is left
/// then is given back.
#[test]
fn a_cause_is_told_once_a_minute(rt: HostRuntime) -> Result<(), Fail> {
    let mut errors = Watched::new(Vec::new(rt.alloc()));
    let mut live = Live::<Vec<u8>>::new(rt.alloc(), None, None);
    let why = Why::Accept;
    for session in 6..9u32 {
        live.tell(&mut errors, u64::from(session), Ended { session, why });
    }
    let idle = Ended {
        session: 9,
        why: Why::Idle,
    };
    live.tell(&mut errors, 9, idle);
    live.look(&rt, &mut errors, 60_005);
    live.look(&rt, &mut errors, 60_300);
    live.tell(&mut errors, 60_400, Ended { session: 10, why });
    let untold = live.end();
    assert!(rt; untold.all);
    assert!(rt; untold.ended.as_slice() == [Ended { session: 10, why }].as_slice());
    assert!(rt;
        errors.into_inner().as_slice()
            == b"session 6: accept fault\nsession 9: idle\naccept fault: 2 more\n".as_slice()
    );
    Ok(())
}

//! Streams that give a greeting first.
use super::base::{Step, assert_steps, come_by_ann, hears};
use bl_connection::stream::Ends;
use bl_doors::greeted::Greeted;

/// A greeting comes before all that who came by a door gives, in parts as large as the room for it, and writes go to
/// it.
#[test]
fn a_greeting_comes_first(rt: HostRuntime) {
    const STEPS: &[Step] = &[
        Step::Reads(7, b"hello a"),
        Step::Reads(3, b"nn\nlo a"),
        Step::Reads(7, b"hello b"),
        Step::Writes(b"ok\n"),
        Step::Reads(7, b"ob\nwait"),
        Step::Reads(1, b"\nb\nwait"),
        Step::Reads(0, b""),
    ];
    let said = b"hello bob\nwait\n";
    let (mut client, mut stream) = come_by_ann(&rt, "first.doors", "first.doors/ann/door", said);
    assert_steps(&rt, &mut stream, &mut [0u8; 7], STEPS);
    drop(stream);
    assert!(rt; hears(rt.alloc(), &mut client, b"ok\n"));
    drop(client);
}

/// A stream with no greeting gives what the stream in it gives.
#[test]
fn a_plain_stream_greets_nobody(rt: HostRuntime) {
    const STEPS: &[Step] = &[Step::Reads(5, b"wait\n\0\0"), Step::Reads(0, b"")];
    let ends = Ends {
        reader: b"wait\n".as_slice(),
        writer: Vec::new(rt.alloc()),
    };
    let mut stream = Greeted::plain(rt.alloc(), ends);
    assert_steps(&rt, &mut stream, &mut [0u8; 7], STEPS);
    drop(stream);
}

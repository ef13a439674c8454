//! Stored trails, whole.
use crate::base::{assert_rebuilt, base, reserved};
use bl_setup::setup::Setup;
use std::alloc::AllocGlobal;
use std::process::Abort;
use std::test::Fail;

/// What closes each of them.
const STOP: &[u8] = b"stop\n";

/// The trails of `examples/trails` that are accepted by version 2 over the base setup, without what closes them.
const ACCEPTED: [&str; 4] = [
    "trail 2\nlimit 10000\nopen bob\n\
line 0 1 current s{nato}\n\
line 0 2 when read memo do spawn when write note do add note\"x\";end;end\n\
line 0 3 current u\n\
start 0 rule\nstart 1 run\nend 1 done\nstart 2 rule\nstart 3 denied carry bob note\n",
    "trail 2\nlimit 10000\nopen ann\nopen root\n\
line 0 1 when write memo do add memo\"a\";end\n\
line 1 1 delete memo\nline 1 2 create memo\n\
line 0 2 when read memo do show memo;end\n\
start 0 run\nend 0 done\nstart 1 rule\nstart 2 rule\nstart 3 denied discretionary ann memo\n",
    "trail 2\nlimit 10000\nopen ann\nopen root\n\
line 0 1 when write memo do add memo\"a\";end\n\
line 1 1 delete memo\nline 1 2 create memo\nline 1 3 give ann memo r\n\
line 0 2 when read memo do show memo;end\n\
start 0 run\nend 0 done\nstart 1 rule\nstart 2 rule\nstart 3 rule\nstart 4 run\nend 4 done \"\"\n",
    "trail 2\nlimit 10000\nopen ann\n\
line 0 1 when write memo do add memo\"a\";spawn when read memo do show memo;end;end\n\
line 0 2 when write memo do add memo\"b\";end\n\
start 0 run\nend 0 done\nstart 1 run\nend 1 done\nstart 2 run\nend 2 done \"m1ab\"\n",
];

/// The trail `create-use-delete` over the base setup with two reserved documents.
const CREATE_USE_DELETE: &str = "trail 2\nlimit 10000\nopen root\n\
line 0 1 create draft\n\
line 0 2 create draft\n\
line 0 3 give root draft w\n\
line 0 4 when write draft do set draft\"d\";show draft;end\n\
line 0 5 delete draft\n\
line 0 6 when read draft do show draft;end\n\
line 0 7 create draft\n\
line 0 8 when write draft do end\n\
line 0 9 give root draft r\n\
line 0 10 when read draft do show draft;end\n\
line 0 11 delete top\n\
start 0 rule\nstart 1 denied present root draft\nstart 2 rule\nstart 3 run\nend 3 done \"d\"\nstart 4 rule\n\
start 5 denied absent root draft\nstart 6 rule\nstart 7 denied discretionary root draft\nstart 8 rule\n\
start 9 run\nend 9 done \"\"\nstart 10 denied absent root top\n";

/// Two people, of whose last entries one is lost while it runs and one before it starts.
const TWO_PEOPLE: &str = "trail 2\nlimit 10000\nopen ann\nopen bob\n\
line 0 1 when write memo do add memo\"!\";end\n\
line 1 1 when read memo do show memo;end\n\
line 1 2 current s{nato}\n\
line 1 3 when read memo do show memo;end\n\
line 0 2 when read note do show note;end\n\
line 0 3 when read memo do show memo;end\n\
start 0 run\nend 0 done\nstart 1 denied star bob memo\nstart 2 rule\nstart 4 run\nstart 3 run\n\
end 3 done \"m1!\"\nlost 4\nlost 5\n";

/// Asserts that each of these trails is rebuilt whole.
fn assert_whole<R: AllocGlobal + Abort>(
    rt: &R,
    setup: &Setup,
    fronts: &[&str],
) -> Result<(), Fail> {
    for front in fronts {
        assert_rebuilt(rt, setup, front.as_bytes(), STOP, 0)?;
    }
    Ok(())
}

#[test]
fn accepted_trails(rt: HostRuntime) -> Result<(), Fail> {
    let setup = base(rt.alloc())?;
    let passed = assert_whole(&rt, &setup, ACCEPTED.as_slice());
    drop(setup);
    passed
}

#[test]
fn create_use_delete(rt: HostRuntime) -> Result<(), Fail> {
    let setup = reserved(rt.alloc())?;
    let passed = assert_rebuilt(&rt, &setup, CREATE_USE_DELETE.as_bytes(), STOP, 0);
    drop(setup);
    passed
}

#[test]
fn losses(rt: HostRuntime) -> Result<(), Fail> {
    let setup = base(rt.alloc())?;
    let passed = assert_rebuilt(&rt, &setup, TWO_PEOPLE.as_bytes(), STOP, 0);
    drop(setup);
    passed
}

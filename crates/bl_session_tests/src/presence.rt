//! Documents that come and go.
use crate::base::{assert_said, assert_said_over_reserved};

#[test]
fn create_use_delete(rt: HostRuntime) {
    let input = "hello root\n\
        create draft\n\
        create draft\n\
        give root draft w\n\
        when write draft do set draft \"d\"; show draft; end\n\
        delete draft\n\
        when read draft do show draft; end\n\
        create draft\n\
        when write draft do end\n\
        give root draft r\n\
        when read draft do show draft; end\n\
        delete top\n";
    let output = "ok\n\
        1 done\n\
        2 denied present root draft\n\
        3 done\n\
        4 done \"d\"\n\
        5 done\n\
        6 denied absent root draft\n\
        7 done\n\
        8 denied discretionary root draft\n\
        9 done\n\
        10 done \"\"\n\
        11 denied absent root top\n\
        bye\n";
    assert_said_over_reserved(&rt, input, output);
}

#[test]
fn absent_named_first(rt: HostRuntime) {
    let input = "hello ann\nwhen read top do end\ndelete memo\n";
    let output = "ok\n1 denied absent ann top\n2 denied admin ann memo\nbye\n";
    assert_said_over_reserved(&rt, input, output);
}

/// Each access is judged whole before the next one: what an earlier one fails is named, though a later document is
/// absent.
#[test]
fn earlier_access_named_before_an_absent_one(rt: HostRuntime) {
    let input = "hello ann\nwhen write note, read top do end\nwhen read top, write note do end\n";
    let output = "ok\n1 denied star ann note\n2 denied absent ann top\nbye\n";
    assert_said_over_reserved(&rt, input, output);
}

/// A child enters behind the delete that was admitted with its parent, and finds its document absent.
#[test]
fn child_finds_its_document_absent(rt: HostRuntime) {
    let input = "hello root\n\
        when write note do add note \"a\"; spawn when read note do show note; end; end\n\
        delete note\n\
        wait\n\
        create note\n\
        give root note r\n\
        when read note do show note; end\n";
    let output = "ok\n1 done\n1.1 denied absent root note\n2 done\nok\n\
        3 done\n4 done\n5 done \"\"\nbye\n";
    assert_said(&rt, input, output);
}

#[test]
fn refused_rules_of_documents(rt: HostRuntime) {
    let input = "hello root\ncreate zed\ndelete\ncreate create\ndelete memo note\n";
    let output =
        "ok\n1 refused unknown zed\n2 refused syntax 6\n3 refused syntax 7\n4 refused syntax 12\nbye\n";
    assert_said(&rt, input, output);
}

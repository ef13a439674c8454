//! Rules among the lines of a session.
use crate::base::assert_said;

#[test]
fn rules_and_their_checks(rt: HostRuntime) {
    let input = "hello ann\ngive cat memo r\ncurrent s\ncurrent t\nwhen write memo do end\n";
    let output =
        "ok\n1 denied admin ann memo\n2 done\n3 denied greatest ann\n4 denied star ann memo\nbye\n";
    assert_said(&rt, input, output);
}

#[test]
fn a_right_is_given_and_taken(rt: HostRuntime) {
    let input =
        "hello root\ngive root memo r\nwhen read memo do show memo; end\nwait\nrescind root memo r\n\
        when read memo do show memo; end\n";
    let output = "ok\n1 done\n2 done \"m1\"\nok\n3 done\n4 denied discretionary root memo\nbye\n";
    assert_said(&rt, input, output);
}

#[test]
fn a_rule_that_names_nobody(rt: HostRuntime) {
    let input =
        "hello root\ngive zed memo r\nclassify memo s{nato,nato}\ncurrent x\ngive bob memo x\n";
    let output =
        "ok\n1 refused unknown zed\n2 refused twice nato\n3 refused unknown x\n4 refused syntax 14\nbye\n";
    assert_said(&rt, input, output);
}

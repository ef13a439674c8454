//! When children enter, and the order of their labels.
use crate::base::assert_said;

#[test]
fn child_enters_after_admitted_line(rt: HostRuntime) {
    let input = "hello ann\n\
        when write memo do add memo \"a\"; spawn when read memo do show memo; end; end\n\
        when write memo do add memo \"b\"; end\n\
        wait\n";
    let output = "ok\n1 done\n1.1 done \"m1ab\"\n2 done\nok\nbye\n";
    assert_said(&rt, input, output);
}

/// The grandchild enters behind the second line and behind its parent, and is told between them.
#[test]
fn three_levels(rt: HostRuntime) {
    let input = "hello ann\n\
        when write memo do add memo \"a\"; \
        spawn when write memo do add memo \"b\"; \
        spawn when read memo do show memo; end; end; end\n\
        when write memo do add memo \"c\"; show memo; end\n";
    let output = "ok\n1 done\n1.1 done\n1.1.1 done \"m1acb\"\n2 done \"m1ac\"\nbye\n";
    assert_said(&rt, input, output);
}

/// Eleven children, of which the first, the second and the tenth have one of their own. All of these enter behind the
/// eleventh, and each is told behind its parent.
#[test]
fn labels_in_numeric_order(rt: HostRuntime) {
    let input = "hello ann\n\
        when read note do \
        spawn when read note do spawn when read note do say \"below 1\"; end; end; \
        spawn when read note do spawn when read note do say \"below 2\"; end; end; \
        spawn when read note do say \"3\"; end; \
        spawn when read note do say \"4\"; end; \
        spawn when read note do say \"5\"; end; \
        spawn when read note do say \"6\"; end; \
        spawn when read note do say \"7\"; end; \
        spawn when read note do say \"8\"; end; \
        spawn when read note do say \"9\"; end; \
        spawn when read note do spawn when read note do say \"below 10\"; end; end; \
        spawn when read note do say \"11\"; end; \
        end\n";
    let output = "ok\n1 done\n\
        1.1 done\n1.1.1 done \"below 1\"\n\
        1.2 done\n1.2.1 done \"below 2\"\n\
        1.3 done \"3\"\n1.4 done \"4\"\n1.5 done \"5\"\n1.6 done \"6\"\n\
        1.7 done \"7\"\n1.8 done \"8\"\n1.9 done \"9\"\n\
        1.10 done\n1.10.1 done \"below 10\"\n\
        1.11 done \"11\"\nbye\n";
    assert_said(&rt, input, output);
}

/// A spawn of a branch that didn't run has no number.
#[test]
fn child_of_the_branch_that_ran(rt: HostRuntime) {
    let input = "hello ann\n\
        when read note do \
        if note is \"n2\" then spawn when read note do say \"then\"; end; \
        else spawn when read note do say \"else\"; end; end; \
        spawn when read note do say \"last\"; end; end\n";
    let output = "ok\n1 done\n1.1 done \"else\"\n1.2 done \"last\"\nbye\n";
    assert_said(&rt, input, output);
}

/// A child is decided by its own accesses, and what is denied has no children.
#[test]
fn child_denied(rt: HostRuntime) {
    let input = "hello ann\n\
        when read memo do \
        spawn when write note do spawn when read note do say \"never\"; end; end; \
        spawn when read memo do show memo; end; end\n";
    let output = "ok\n1 done\n1.1 denied star ann note\n1.2 done \"m1\"\nbye\n";
    assert_said(&rt, input, output);
}

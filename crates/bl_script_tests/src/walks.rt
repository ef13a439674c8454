//! The walk takes each `when` without fault, so that such a line is not read by parts. That it
//! takes no other is proved.
use super::fixtures::base_names;
use bl_walk::plain::{Doubt, plain_script};
use bl_work::names::Names;
use std::alloc::Global;
use std::process::Abort;

/// How many behaviours the walk makes of the line. It promises nothing, which keeps the proofs of its callers short.
fn walked_by(alloc: Global, names: &Names, line: &[u8]) -> Result<usize, Doubt> {
    if line.len() > 8_192 {
        return Err(Doubt::Fault);
    }
    Ok(plain_script(alloc, names, line)?.weight())
}

/// How many behaviours the walk makes of the line, by the base names.
fn walked(alloc: Global, line: &[u8]) -> Result<usize, Doubt> {
    match base_names(alloc) {
        Some(names) => {
            let weight = walked_by(alloc, &names, line);
            drop(names);
            weight
        }
        None => Err(Doubt::Memory),
    }
}

/// Asserts of each line that the walk makes so many behaviours of it, or doubts it.
fn assert_walked(rt: &impl Abort, alloc: Global, lines: &[(&str, Result<usize, Doubt>)]) {
    for (line, weight) in lines {
        assert!(rt; walked(alloc, line.as_bytes()) == *weight, "{line}");
    }
}

#[test]
fn walks_each_statement(rt: HostRuntime) {
    const LINES: &[(&str, Result<usize, Doubt>)] = &[
        ("when read memo do end", Ok(1)),
        ("\t when\twrite memo ,append note do  end ", Ok(1)),
        ("when read memo do show memo; say \"\"; end", Ok(1)),
        ("when write memo do set memo \"x\"; \t end", Ok(1)),
        ("when append memo, read note do add memo \"x\"; end", Ok(1)),
        (
            "when append memo, write note do add memo \"x\"; set note \"y z\"; end",
            Ok(1),
        ),
        (
            "when write memo, write note do copy memo to note; pour note to memo; end",
            Ok(1),
        ),
        (
            "when read memo do if memo is \"\" then end; if memo has\"a\"then show memo; else say\"b\";end;end",
            Ok(1),
        ),
    ];
    assert_walked(&rt, rt.alloc(), LINES);
}

#[test]
fn walks_spawned_behaviours(rt: HostRuntime) {
    const LINES: &[(&str, Result<usize, Doubt>)] = &[
        (
            "when read memo do spawn when append memo do spawn when read log do end; end; \
spawn when read note do end; end",
            Ok(4),
        ),
        (
            "when read memo do if memo is \"\" then spawn when read memo do show memo; end; \
else spawn when read log do end; end; end",
            Ok(3),
        ),
    ];
    assert_walked(&rt, rt.alloc(), LINES);
}

#[test]
fn doubts_other_lines(rt: HostRuntime) {
    const LINES: &[(&str, Result<usize, Doubt>)] = &[
        ("hello bob", Err(Doubt::Fault)),
        ("wait", Err(Doubt::Fault)),
        ("", Err(Doubt::Fault)),
        ("whenever", Err(Doubt::Fault)),
        ("when reader memo do end", Err(Doubt::Fault)),
    ];
    assert_walked(&rt, rt.alloc(), LINES);
}

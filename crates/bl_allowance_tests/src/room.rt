//! Room that is set aside, given back and refused, by one thread and by two.
use super::base::{MOST_READ, assert_answers, assert_gives, lines_of};
use bl_allowance::allowance::Allowance;
use bl_connection::stream::Answer;
use std::process::Abort;
use std::thread;

/// Room is given as far as it goes, and what was given back is there again.
#[test]
fn room_goes_as_far_as_the_limit(rt: HostRuntime) {
    let allowance = Allowance::new(100, 4);
    assert!(rt; allowance.set_aside(0));
    assert!(rt; !allowance.set_aside(4));
    assert!(rt; allowance.set_aside(2));
    assert!(rt; allowance.set_aside(1));
    assert!(rt; !allowance.set_aside(1));
    allowance.give_back(1);
    assert!(rt; allowance.set_aside(1));
    allowance.give_back(3);
    allowance.spend(33);
    assert!(rt; !allowance.set_aside(2));
    assert!(rt; allowance.set_aside(1));
    assert!(rt; !allowance.is_over());
    allowance.end();
    assert!(rt; allowance.is_over());
}

/// The most that a limit may be, and more lines than it has room for.
#[test]
fn largest_numbers(rt: HostRuntime) {
    let allowance = Allowance::new(u32::MAX, u32::MAX);
    assert!(rt; allowance.set_aside(0));
    assert!(rt; !allowance.set_aside(u32::MAX));
    assert!(rt; !allowance.set_aside(1));
}

/// The room of the lines that were given is given back at the next read; as long as there is room for one line, lines
/// go on one by one. Then the run ends.
#[test]
fn refused_room_ends_the_run(rt: HostRuntime) {
    let allowance = Allowance::new(63, 0);
    let mut stream = lines_of(&rt, b"a\nb\nc\n", &allowance);
    assert_gives(&rt, &mut stream, MOST_READ, b"a\n");
    assert!(rt; !allowance.set_aside(1));
    allowance.spend(20);
    assert_gives(&rt, &mut stream, MOST_READ, b"b\n");
    allowance.spend(20);
    assert!(rt; !allowance.is_over());
    assert_gives(&rt, &mut stream, MOST_READ, b"");
    assert!(rt; allowance.is_over());
}

/// Room is given back at a read that finds no line, by `into_inner`, and where a stream is let go.
#[test]
fn room_is_given_back(rt: HostRuntime) {
    let allowance = Allowance::new(32, 0);
    let mut stream = lines_of(&rt, b"a\n|b\n", &allowance);
    assert_gives(&rt, &mut stream, MOST_READ, b"a\n");
    assert!(rt; !allowance.set_aside(1));
    assert_answers(&rt, &mut stream, Answer::WouldBlock);
    assert!(rt; allowance.set_aside(1));
    allowance.give_back(1);
    assert_gives(&rt, &mut stream, MOST_READ, b"b\n");
    assert!(rt; !allowance.set_aside(1));
    drop(stream.into_inner());
    assert!(rt; allowance.set_aside(1));
    allowance.give_back(1);
    let mut other = lines_of(&rt, b"a\n", &allowance);
    assert_gives(&rt, &mut other, MOST_READ, b"a\n");
    assert!(rt; !allowance.set_aside(1));
    drop(other);
    assert!(rt; allowance.set_aside(1));
}

/// How often room for one line is set aside, of so many times that it is asked for; each second time it is given back.
fn times_set_aside(allowance: &Allowance, times: u32) -> u32 {
    let mut count = 0u32;
    for time in 0..times {
        if allowance.set_aside(1) {
            if time % 2 == 0 {
                allowance.give_back(1);
            } else {
                count = count.saturating_add(1);
            }
        }
    }
    count
}

/// Two threads set room aside together: never more than there is, and in the end all of it.
#[test]
fn two_threads(rt: HostRuntime) {
    let allowance = Allowance::new(320_031, 0);
    let (one, two) = thread::join(
        &rt,
        || times_set_aside(&allowance, 100_000),
        || times_set_aside(&allowance, 100_000),
    );
    assert!(rt; one.saturating_add(two) <= 10_000);
    let rest = times_set_aside(&allowance, 100_000);
    assert!(rt; one.saturating_add(two).saturating_add(rest) == 10_000);
}

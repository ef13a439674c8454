//! When a thread looks for connections that are idle.
use super::base::hold;
use bl_entrance::looks::Looks;
use std::time::Duration;

/// Looks are a quarter of the time apart, and a second at most.
#[test]
fn looks_are_due_from_time_to_time(rt: HostRuntime) {
    let mut looks = Looks::after(2);
    hold(
        &rt,
        &[
            ("the time", looks.most() == 2_000),
            ("apart", looks.apart() == Duration::from_millis(500)),
            ("the first", looks.is_due(5_000)),
            ("not yet", !looks.is_due(5_499)),
            ("the second", looks.is_due(5_500)),
            ("not at once", !looks.is_due(5_501)),
            (
                "a second at most",
                Looks::after(86_400).apart() == Duration::from_secs(1),
            ),
        ],
    );
}

//! Threads that are started with a pass of their own, and joined.
ghost use Rattle.std.specs.Prelude.{◌≡◌, ◌<◌, ◌≤◌, ◌+◌, All, IfSome, true, vec_len};
ghost use Rattle.bl_gate.specs.Gates.{Follows};
ghost use Rattle.bl_host.specs.Threads.{IsPart, Remains};

use crate::attend::SessionAcceptor;
use crate::context::ThreadContext;
use bl_entrance::watch::Watch;
use bl_gate::gate::Gate;
use bl_gate::pass::Pass;
use bl_keeper::keep::Keep;
use bl_worker::bell::Closed;
use bl_worker::pause::Pause;
use std::snapshot::Snapshot;
use std::sync::Wait;
use std::thread::{Promise, PromisedHandle, Scope, Threads};
use std::time::Clock;

/// What a thread promises: to give back its pass, which follows the one that it was given.
#[derive(Drop)]
pub(crate) struct GivesPassBack(Snapshot<Pass>);

impl Promise<Pass> for GivesPassBack {
    ghost kept_by = { λ promise pass. Follows promise.0.value pass };
}

/// A thread that was started.
pub(crate) type RunningThread = PromisedHandle<Pass, GivesPassBack>;

/// Starts a worker, with one part of the pass; `None` where no thread can be made.
pub(crate) fn start_worker<'s, E, P: Pause + Sync, K: Keep + Sync, T: Threads + Wait + Sync>(
    scope: &Scope<'s, E>,
    context: &ThreadContext<'s, P, K, T>,
    pass: &mut Pass,
) -> Option<RunningThread>
    requires gate { pass.old.gate ≡ context.now.gate.now }
    requires some { 1 < pass.old.parts }
    ensures rest { Remains pass.old pass.new }
    ensures parts { pass.new.parts + 1 ≡ pass.old.parts }
    ensures running { IfSome result (λ running. IsPart context.now.gate.now running.promise.0.value) }
{
    let part = context.gate.split_pass(pass);
    let promise = GivesPassBack(Snapshot::of(&part));
    let (rt, alloc, gate) = (context.rt, context.alloc, context.gate);
    let (bell, alarms) = (context.bell, context.alarms);
    let (pause, keep, quota) = (context.pause, context.keep, context.quota);
    let started = scope.spawn_with(
        promise,
        move || -> Pass
            requires { part.gate ≡ gate.now }
            ensures { Follows part result }
        {
            let context = ThreadContext {
                rt,
                alloc,
                gate,
                bell,
                alarms,
                pause,
                keep,
                quota,
            };
            context.work(part)
        },
    );
    started.ok()
}

/// Starts a session thread, with one part of the pass; `None` where no thread can be made.
pub(crate) fn start_session<
    's,
    E,
    P: Pause + Sync,
    K: Keep + Sync,
    T: Threads + Wait + Clock + Sync,
    D: SessionAcceptor + Sync,
>(
    scope: &Scope<'s, E>,
    context: &ThreadContext<'s, P, K, T>,
    pass: &mut Pass,
    acceptor: &'s D,
    thread: usize,
    watch: Watch,
) -> Option<RunningThread>
    requires gate { pass.old.gate ≡ context.now.gate.now }
    requires some { 1 < pass.old.parts }
    ensures rest { Remains pass.old pass.new }
    ensures parts { pass.new.parts + 1 ≡ pass.old.parts }
    ensures running { IfSome result (λ running. IsPart context.now.gate.now running.promise.0.value) }
{
    let part = context.gate.split_pass(pass);
    let promise = GivesPassBack(Snapshot::of(&part));
    let (rt, alloc, gate) = (context.rt, context.alloc, context.gate);
    let (bell, alarms) = (context.bell, context.alarms);
    let (pause, keep, quota) = (context.pause, context.keep, context.quota);
    let started = scope.spawn_with(
        promise,
        move || -> Pass
            requires { part.gate ≡ gate.now }
            ensures { Follows part result }
        {
            let context = ThreadContext {
                rt,
                alloc,
                gate,
                bell,
                alarms,
                pause,
                keep,
                quota,
            };
            acceptor.be_attended(&context, part, thread, watch)
        },
    );
    started.ok()
}

/// Starts so many workers, and says whether all were started. After one that was not, no other is.
pub(crate) fn start_workers<'s, E, P: Pause + Sync, K: Keep + Sync, T: Threads + Wait + Sync>(
    scope: &Scope<'s, E>,
    context: &ThreadContext<'s, P, K, T>,
    pass: &mut Pass,
    count: u32,
    threads: &mut Vec<RunningThread>,
) -> bool
    requires gate { pass.old.gate ≡ context.now.gate.now }
    requires some { count < pass.old.parts }
    requires threads { All (λ running. IsPart context.now.gate.now running.promise.0.value) threads.old.items }
    ensures rest { Remains pass.old pass.new }
    ensures left { pass.old.parts ≤ pass.new.parts + count }
    ensures whole { result ≡ true → pass.new.parts + vec_len threads.new ≡ pass.old.parts + vec_len threads.old }
    ensures all { result ≡ true → vec_len threads.new ≡ vec_len threads.old + count }
    ensures threads { All (λ running. IsPart context.now.gate.now running.promise.0.value) threads.new.items }
{
    // a thread that nobody could join would be left to itself
    if threads.reserve(count as usize).is_err() {
        return false;
    }
    for _ in 0..count {
        let Some(running) = start_worker(scope, context, pass) else {
            return false;
        };
        if threads.push(running).is_err() {
            return false;
        }
    }
    true
}

/// Starts a session thread for each place where one waits, and says whether all were started. After one that was not,
/// no other is.
pub(crate) fn start_sessions<
    's,
    E,
    P: Pause + Sync,
    K: Keep + Sync,
    T: Threads + Wait + Clock + Sync,
    D: SessionAcceptor + Sync,
>(
    scope: &Scope<'s, E>,
    context: &ThreadContext<'s, P, K, T>,
    pass: &mut Pass,
    mut watches: Vec<Watch>,
    acceptor: &'s D,
    threads: &mut Vec<RunningThread>,
) -> bool
    requires gate { pass.old.gate ≡ context.now.gate.now }
    requires some { vec_len watches < pass.old.parts }
    requires threads { All (λ running. IsPart context.now.gate.now running.promise.0.value) threads.old.items }
    ensures rest { Remains pass.old pass.new }
    ensures whole { result ≡ true → pass.new.parts + vec_len threads.new ≡ pass.old.parts + vec_len threads.old }
    ensures all { result ≡ true → vec_len threads.new ≡ vec_len threads.old + vec_len watches }
    ensures threads { All (λ running. IsPart context.now.gate.now running.promise.0.value) threads.new.items }
{
    let (rt, alloc, behind) = (context.rt, context.alloc, watches.len());
    // a thread that nobody could join would be left to itself
    if threads.reserve(behind).is_err() {
        acceptor.have_come(rt, alloc, behind, behind);
        return false;
    }
    while let Some(watch) = watches.pop() {
        let thread = watches.len();
        let Some(running) = start_session(scope, context, pass, acceptor, thread, watch) else {
            acceptor.have_come(rt, alloc, thread + 1, behind);
            return false;
        };
        if threads.push(running).is_err() {
            acceptor.have_come(rt, alloc, thread, behind);
            return false;
        }
    }
    acceptor.have_come(rt, alloc, 0, behind);
    true
}

/// Waits for each of these threads, and takes its pass in.
pub(crate) fn join_threads<T: Threads>(
    rt: &T,
    gate: &Gate,
    pass: &mut Pass,
    threads: Vec<RunningThread>,
)
    requires gate { pass.old.gate ≡ gate.now }
    requires threads { All (λ running. IsPart gate.now running.promise.0.value) threads.items }
    ensures rest { Remains pass.old pass.new }
    ensures parts { pass.new.parts ≡ pass.old.parts + vec_len threads }
{
    for running in threads {
        let part = running.join(rt);
        gate.meet(pass, part);
    }
}

/// Waits for each of these workers, which return since their bell is closed, and takes its pass in.
pub(crate) fn join_workers<T: Threads>(
    rt: &T,
    gate: &Gate,
    pass: &mut Pass,
    workers: Vec<RunningThread>,
    closed: Closed,
)
    requires gate { pass.old.gate ≡ gate.now }
    requires workers { All (λ running. IsPart gate.now running.promise.0.value) workers.items }
    ensures rest { Remains pass.old pass.new }
    ensures parts { pass.new.parts ≡ pass.old.parts + vec_len workers }
{
    let _ = closed;
    join_threads(rt, gate, pass, workers);
}

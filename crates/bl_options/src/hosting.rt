//! What the options of `serve` say of one run, and of a chain of runs.
ghost use Rattle.std.specs.Prelude.{◌≡◌, ◌↔◌, ℕ, IfErr, IfNone, IfOk, IfSome, IsTrue, Option, codes};
ghost use Rattle.bl_options.specs.Ranges.{IsChainHostingInRange, IsEntranceInRange, IsHostingInRange, IsIdleInRange};
ghost use Rattle.bl_options.specs.Said.{HasChainHosting, HasCount, HasEntrance, HasHosting, LeavesAllToChain};
ghost use Rattle.bl_options.specs.declared.hosting.ChainHosting.{ChainHosting as AnyChainHosting};
ghost use Rattle.bl_options.specs.declared.hosting.Hosting.{Hosting as AnyHosting};
ghost use Rattle.bl_options.specs.declared.hosting.NamedEntrance.{NamedEntrance as AnyEntrance};

use crate::number::{OutOfRange, is_said, number, number_or_most};
use crate::trail::{TrailKeeping, keeping_of, resumes, syncing_of, trail_limit_of, trail_of};
use bl_asked::options::Options;
use bl_asked::trail::TrailFile;
use bl_command_line::bounds::{
    MOST_CLIENTS, MOST_IDLE, MOST_LIMIT, MOST_PORT, MOST_SESSIONS, MOST_THREADS,
};
use clap::ArgMatches;

/// Where clients come in.
#[derive(Clone, Copy, Debug, PartialEq, Eq)]
pub enum NamedEntrance<'a> {
    /// The port of 127.0.0.1 that is listened on, 1 to 65,535.
    Port(u32),
    /// The doors in the folder of this name.
    Doors(&'a str),
}

/// What a run of `serve` hosts, and where it keeps the trail.
#[derive(Clone, Copy, Debug)]
pub struct Hosting<'a> {
    /// The weight of the lines that are admitted at most, 1 to 100,000.
    pub limit: u32,
    /// Whether that was said; else it is the default.
    pub says_limit: bool,
    /// Where clients come in.
    pub entrance: NamedEntrance<'a>,
    /// Where the trail is kept.
    pub trail: TrailFile<'a>,
    /// How it is kept.
    pub keeping: TrailKeeping,
    /// Whether the run goes on from the trail of one that was cut off; never where the trail is written at the end.
    pub resumes: bool,
    /// How many threads, sessions and clients there are, how long one may be idle, how many bytes the trail may have.
    pub options: Options,
    /// The name of the log of connections; `None` where none is kept.
    pub log: Option<&'a str>,
}

/// What a chain of runs hosts.
#[derive(Clone, Copy, Debug)]
pub struct ChainHosting<'a> {
    /// The weight of the lines that are admitted at most in each run, 32 to 100,000; so any line fits into a new one.
    pub limit: u32,
    /// Where clients come in.
    pub entrance: NamedEntrance<'a>,
    /// Whether what was told outlives the end of the machine too; else that of the program.
    pub is_synced: bool,
    /// How many threads there are, that 1,000 sessions are taken by each run, that 500 clients at most are there at
    /// once, how long one may be idle, how many bytes the trail of each run may have.
    pub options: Options,
    /// The name of the log of connections; `None` where none is kept.
    pub log: Option<&'a str>,
}

/// The weight of the lines that may be admitted in each run of a chain, at least: that of the heaviest line.
const LEAST_CHAIN_LIMIT: u32 = 32;

/// How many connections a chain has open at once at most, so that the next run, which takes 1,000, has some left for
/// newcomers.
const MOST_CHAIN_CLIENTS: u32 = 500;

/// Where the options say that clients come in; `None` where they name no port in its range and no doors, or both.
pub fn entrance_of<'a>(options: &ArgMatches<'a>) -> Option<NamedEntrance<'a>>
    ensures range { IfSome result IsEntranceInRange }
    ensures written { IfSome result (HasEntrance options.now) }
    ensures none { IfNone result
        ((entrance : AnyEntrance) → HasEntrance options.now entrance → IsEntranceInRange entrance → ⊥) }
{
    match (options.get_str("port"), options.get_str("doors")) {
        (Some(_), None) => match number(options, "port", 1, MOST_PORT) {
            Some(port) => Some(NamedEntrance::Port(port)),
            None => None,
        },
        (None, Some(folder)) => Some(NamedEntrance::Doors(folder)),
        (Some(_), Some(_)) | (None, None) => None,
    }
}

/// For how many seconds the options say that a client may be idle, where they say it.
pub fn idle_of(options: &ArgMatches<'_>) -> Result<Option<u32>, OutOfRange>
    ensures range { IfOk result IsIdleInRange }
    ensures written { IfOk result (HasCount options.now (codes "idle")) }
    ensures none { IfErr result
        (λ _. (idle : Option ℕ) → HasCount options.now (codes "idle") idle → IsIdleInRange idle → ⊥) }
{
    match (
        options.get_str("idle"),
        number(options, "idle", 1, MOST_IDLE),
    ) {
        (None, _) => Ok(None),
        (Some(_), Some(seconds)) => Ok(Some(seconds)),
        (Some(_), None) => Err(OutOfRange),
    }
}

/// Whether none of the options was said in whose place a chain stands.
pub fn leaves_all_to_chain(options: &ArgMatches<'_>) -> bool
    ensures { IsTrue result ↔ LeavesAllToChain options.now }
{
    let setup = is_said(options, "setup");
    let trail = is_said(options, "trail");
    let resume = is_said(options, "resume");
    let replace = is_said(options, "replace");
    let claim = is_said(options, "claim-trail");
    let sessions = is_said(options, "sessions");
    !setup && !trail && !resume && !replace && !claim && !sessions
}

/// What the options of `serve` say of its sessions and its trail.
#[tactic(auto, using(crate::proofs::Given::idle_is_in_range))]
pub fn hosting_of<'a>(options: &ArgMatches<'a>) -> Option<Hosting<'a>>
    ensures range { IfSome result IsHostingInRange }
    ensures written { IfSome result (HasHosting options.now) }
    ensures none { IfNone result
        ((hosting : AnyHosting) → HasHosting options.now hosting → IsHostingInRange hosting → ⊥) }
{
    let limit = number(options, "limit", 1, MOST_LIMIT)?;
    let entrance = entrance_of(options)?;
    let trail = trail_of(options)?;
    let trail_limit = trail_limit_of(options)?;
    let workers = number(options, "workers", 1, MOST_THREADS)?;
    let session_threads = number(options, "session-threads", 1, MOST_THREADS)?;
    let sessions = number(options, "sessions", 1, MOST_SESSIONS)?;
    let clients = number(options, "clients", 1, MOST_CLIENTS)?;
    let Ok(idle) = idle_of(options) else {
        return None;
    };
    let keeping = keeping_of(options)?;
    let resumes = resumes(options);
    if resumes && keeping == TrailKeeping::AtEnd {
        return None;
    }
    Some(Hosting {
        limit,
        says_limit: is_said(options, "limit"),
        entrance,
        trail,
        keeping,
        resumes,
        options: Options {
            workers,
            session_threads,
            sessions,
            clients,
            idle,
            trail_limit,
        },
        log: options.get_str("log"),
    })
}

/// What the options of `serve` say of a chain.
#[tactic(auto, using(crate::proofs::Given::idle_is_in_range))]
pub fn chain_hosting_of<'a>(options: &ArgMatches<'a>) -> Option<ChainHosting<'a>>
    ensures range { IfSome result IsChainHostingInRange }
    ensures written { IfSome result (HasChainHosting options.now) }
    ensures none { IfNone result
        ((hosting : AnyChainHosting) → HasChainHosting options.now hosting → IsChainHostingInRange hosting → ⊥) }
{
    if !leaves_all_to_chain(options) {
        return None;
    }
    let limit = number_or_most(options, "limit", LEAST_CHAIN_LIMIT, MOST_LIMIT)?;
    let entrance = entrance_of(options)?;
    let trail_limit = trail_limit_of(options)?;
    let workers = number(options, "workers", 1, MOST_THREADS)?;
    let session_threads = number(options, "session-threads", 1, MOST_THREADS)?;
    let clients = number_or_most(options, "clients", 1, MOST_CHAIN_CLIENTS)?;
    let Ok(idle) = idle_of(options) else {
        return None;
    };
    let is_synced = syncing_of(options)?;
    let numbers = Options {
        workers,
        session_threads,
        sessions: MOST_SESSIONS,
        clients,
        idle,
        trail_limit,
    };
    let log = options.get_str("log");
    Some(ChainHosting {
        limit,
        entrance,
        is_synced,
        options: numbers,
        log,
    })
}

//! One run of a chain after another.
ghost use Rattle.bl_chain_serving.specs.Going.{IsFault, IsReady};
ghost use Rattle.bl_chain_serving.specs.Telling.{HasToldWhy};
ghost use Rattle.bl_wire.specs.Watch.{end_state};

use crate::once::{After, Chain, run_once};
use bl_chain_run::start::AtHand;
use bl_disk::device::Device;
use bl_file::named::FileName;
use bl_folder::folder::Folder;
use bl_serving::serve::Hosts;
use bl_wire::watched::Watched;
use bl_worker::pause::Pause;
use std::io::Write;
use std::net::Net;
use std::rt::Files;
use std::sync::Wait;
use std::thread::Threads;
use std::time::Clock;

/// Sessions of who comes in at an entrance, in one run of a chain after another, from the run at hand on: the command `serve`
/// with `--chain`. Each run begins with the setup that the one before left.
///
/// `listening` is told on `writer` before the first session is served. It ends only where a run cannot be kept, closed or
/// followed: that is told, and the status is 3, or 4 when out of memory. A session that ends early is told and changes
/// nothing.
pub fn serve_chain<
    D: Device + FileName + Send + Drop,
    F: Folder<D>,
    P: Pause + Sync,
    T: Threads + Wait + Files + Net + Clock + Sync,
    W: Write,
    E: Write,
>(
    hosts: &Hosts<'_, P, T>,
    chain: &mut Chain<'_, F>,
    at: AtHand<D>,
    writer: &mut Watched<W>,
    errors: &mut Watched<E>,
) -> u8
where
    T::File: Send,
    D::Synced: Send,
    requires ready { IsReady D.now D.has_failed at }
    ensures fault { IsFault result }
    ensures told { HasToldWhy chain.old.name.now result (end_state E.contents errors.old)
        (end_state E.contents errors.new) }
{
    let rt = hosts.run_context.rt;
    let mut at = at;
    let mut is_first = true;
    for _ in rt.forever() {
        let was_served = !at.resumes;
        match run_once::<D, F, P, T, W, E>(hosts, chain, at, is_first, writer, errors) {
            After::Next(next) => at = next,
            After::End(status) => return status,
        }
        is_first &= !was_served;
    }
    unreachable!()
}

//! The command `alone`, over the ends that it is given and the system's files.
ghost use Rattle.std.specs.Prelude.{◌≡◌, false, IfErr, IfOk, IfSome};
ghost use Rattle.bl_alone.specs.Plans.{IsAloneOver, IsKeptAs};
ghost use Rattle.bl_command.specs.Runs.{EndsAlone, HasOnlyTold, IsAloneAsked};
ghost use Rattle.bl_setup.specs.Grammar.{IsSetup};
ghost use Rattle.bl_status.specs.Status.{IsEnd};
ghost use Rattle.bl_trail_run.specs.Plans.{IfAsItGoes, MayStart};
ghost use Rattle.bl_trail_run.specs.declared.plan.TrailEnd.{TrailEnd as AnyEnd};
ghost use Rattle.bl_wire.specs.Watch.{used};

use crate::recorded::{Given, Recording, let_go, outlives, sit_recorded};
use bl_alone::alone::alone;
use bl_alone::alone_run::AloneRun;
use bl_asked::trail::TrailFile;
use bl_disk::device::Device;
use bl_file::device::SystemFile;
use bl_file::lock::Lock;
use bl_file::named::FileName;
use bl_options::trail::TrailKeeping;
use bl_setup::setup::Setup;
use bl_status::fault::ProgramFault;
use bl_status::setup::given_setup;
use bl_status::told::tell;
use bl_trail_run::plan::{AtEnd, RunEnd, TrailPlan};
use bl_wire::watched::Watched;
use std::io::{BufRead, Write};
use std::rt::Files as OpensFiles;
use std::time::Clock;

/// What `alone` is asked for: the weight of its lines at most, whether that was said, where its trail is kept, if it is,
/// and how, and whether it goes on from a run that was cut off.
#[derive(Drop)]
pub(crate) struct AskedAlone<'a> {
    pub(crate) run: AloneRun,
    pub(crate) says_limit: bool,
    pub(crate) trail: Option<TrailFile<'a>>,
    pub(crate) keeping: TrailKeeping,
    pub(crate) resumes: bool,
}

/// A session over a setup that was read, of whose trail nothing is to be done once it has ended. The result is the status
/// of the run.
fn sit_unrecorded<T: OpensFiles, D: Device + FileName + Drop, R: BufRead, W: Write, E: Write>(
    run: &AloneRun,
    setup: Setup,
    plan: Option<TrailPlan<'_, T, D>>,
    reader: &mut Watched<R>,
    writer: &mut Watched<W>,
    errors: &mut Watched<E>,
) -> u8
    requires plan { IfSome plan (λ plan. IfAsItGoes plan (MayStart D.now D.has_failed)) }
    requires fine { (reader.old.failed ≡ false) × (writer.old.failed ≡ false) }
    ensures run { (trail : AnyEnd D) × (result ≡ 0 → IsKeptAs plan.entry trail)
        × IsAloneOver D.now D.has_failed D.name plan.entry setup run.now.limit trail (record {
          status = result;
          input = used R.remaining reader.old reader.new;
          output = used W.contents writer.old writer.new;
          errors = used E.contents errors.old errors.new;
        }) }
    ensures status { IsEnd result }
{
    let end = alone(run, setup, plan, reader, writer, errors);
    let RunEnd { status, trail } = end;
    let_go(trail);
    status
}

/// A session over a setup that was read, with a trail or without. The result is the status of the run.
fn sit_given<'a, T: AllocGlobal + OpensFiles + Clock, R: BufRead, W: Write, E: Write>(
    rt: &'a T,
    given: Given<'_>,
    asked: &AskedAlone<'a>,
    reader: &mut Watched<R>,
    writer: &mut Watched<W>,
    errors: &mut Watched<E>,
) -> u8
where
    T::File: Lock,
    requires read { IsSetup given.bytes.now given.setup }
    requires reader { reader.old.failed ≡ false }
    requires writer { writer.old.failed ≡ false }
    ensures run { EndsAlone asked.now.trail asked.now.keeping given.entry.setup asked.now.run.limit (record {
      status = result;
      input = used R.remaining reader.old reader.new;
      output = used W.contents writer.old writer.new;
      errors = used E.contents errors.old errors.new;
    }) }
    ensures status { IsEnd result }
{
    let Given { setup, bytes } = given;
    let Some(trail) = asked.trail else {
        let plan: Option<TrailPlan<'a, T, SystemFile<T::File>>> = None;
        return sit_unrecorded(&asked.run, setup, plan, reader, writer, errors);
    };
    let kept = outlives(asked.keeping);
    match kept {
        Some(keeping) => {
            let recording = Recording {
                setup,
                bytes,
                trail,
                keeping,
                resumes: asked.resumes,
                says_limit: asked.says_limit,
            };
            sit_recorded(rt, recording, &asked.run, reader, writer, errors).status
        }
        None => {
            let plan: TrailPlan<'a, T, SystemFile<T::File>> = TrailPlan::AtEnd(AtEnd { rt, trail });
            sit_unrecorded(&asked.run, setup, Some(plan), reader, writer, errors)
        }
    }
}

/// A session, with a trail or without, once its setup file was read, or a fault was found, which is told. The result is the
/// status of the run.
pub(crate) fn sit<T: AllocGlobal + OpensFiles + Clock, R: BufRead, W: Write, E: Write>(
    rt: &T,
    setup: Result<Vec<u8>, ProgramFault>,
    asked: &AskedAlone<'_>,
    reader: &mut Watched<R>,
    writer: &mut Watched<W>,
    errors: &mut Watched<E>,
) -> u8
where
    T::File: Lock,
    requires reader { reader.old.failed ≡ false }
    requires writer { writer.old.failed ≡ false }
    ensures run { IfOk setup (λ bytes. IsAloneAsked asked.now.trail asked.now.keeping asked.now.run.limit bytes.items (record {
      status = result;
      input = used R.remaining reader.old reader.new;
      output = used W.contents writer.old writer.new;
      errors = used E.contents errors.old errors.new;
    })) }
    ensures unread { IfErr setup (λ fault. HasOnlyTold fault (record {
      status = result;
      input = used R.remaining reader.old reader.new;
      output = used W.contents writer.old writer.new;
      errors = used E.contents errors.old errors.new;
    })) }
    ensures status { IsEnd result }
{
    let text = match setup {
        Ok(text) => text,
        Err(fault) => return tell(errors, &fault),
    };
    // read before any file is made
    let bytes = text.as_slice();
    match given_setup(asked.run.alloc, bytes) {
        Ok(setup) => sit_given(rt, Given { setup, bytes }, asked, reader, writer, errors),
        Err(fault) => tell(errors, &fault),
    }
}

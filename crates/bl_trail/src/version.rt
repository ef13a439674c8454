//! What the versions of a trail have: version 2 has every setup and every work, version 1 knows of no document that
//! comes or goes.
ghost use Rattle.std.specs.Prelude.{◌↔◌, IsTrue};
ghost use Rattle.bl_setup.specs.declared.version.Version.TheVariants.{One};
ghost use Rattle.bl_trail.specs.Versions.{HasSetup, HasWork, KeepsDocuments};

use bl_policy::id::DocId;
use bl_policy::rule::Rule;
use bl_setup::setup::Setup;
use bl_setup::version::Version;
use bl_work::work::Work;

/// Whether every document of the setup is present.
fn is_all_present(setup: &Setup) -> bool
    ensures { IsTrue result ↔ HasSetup One setup.now }
{
    let policy = setup.policy();
    for position in 0..setup.names().documents() {
        if !policy.is_present(DocId::new(position as u16)) {
            return false;
        }
    }
    true
}

/// Whether the version has runs over the setup.
pub fn has_setup(version: Version, setup: &Setup) -> bool
    ensures { IsTrue result ↔ HasSetup version setup.now }
{
    match version {
        Version::One => is_all_present(setup),
        Version::Two => true,
    }
}

/// Whether the rule neither creates nor deletes a document.
fn keeps_documents(rule: &Rule) -> bool
    ensures { IsTrue result ↔ KeepsDocuments rule.now }
{
    match rule {
        Rule::Give { .. } | Rule::Rescind { .. } | Rule::Current { .. } | Rule::Classify { .. } =>
            true,
        Rule::Create { .. } | Rule::Delete { .. } => false,
    }
}

/// Whether the version has lines of the work.
pub fn has_work(version: Version, work: &Work) -> bool
    ensures { IsTrue result ↔ HasWork version work.now }
{
    match version {
        Version::One => match work {
            Work::Behaviour(_) => true,
            Work::Rule(rule) => keeps_documents(rule),
        },
        Version::Two => true,
    }
}

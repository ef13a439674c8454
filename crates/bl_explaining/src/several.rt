//! What is told of accesses, of which one decides.
ghost use Rattle.std.specs.Prelude.{◌≡◌, ◌<◌, All, IfOk, OnOk, length, is_none};
ghost use Rattle.bl_policy.specs.declared.access.Access.{Access as AnyAccess};
ghost use Rattle.bl_explaining.specs.Explained.{IsDecided, IsSetting, TellsAccesses};
ghost use Rattle.bl_explaining.specs.Shown.{AreShown, decision_line, heading};

use crate::access::{first_line, put_access};
use crate::explained::Explained;
use crate::rows::put_line;
use crate::setting::Setting;
use bl_explain::several::{Refused, first_refused};
use bl_policy::access::Access;
use std::alloc::AllocError;

/// Which of the accesses decides.
fn decided(setting: &Setting<'_>, accesses: &[Access]) -> Option<Refused>
    requires setting { IsSetting setting.now }
    requires there { All (λ (access : AnyAccess). access.doc < length setting.now.moment.setup.now.names.documents) accesses.now }
    ensures { IsDecided setting.now accesses.now result }
{
    let policy = setting.moment.policy;
    first_refused(policy, setting.subject, &setting.carried, accesses)
}

/// The line that tells how several accesses are decided.
fn decision_line(
    setting: &Setting<'_>,
    accesses: &[Access],
    refused: Option<Refused>,
) -> Result<Vec<u8>, AllocError>
    requires setting { IsSetting setting.now }
    requires there { All (λ (access : AnyAccess). access.doc < length setting.now.moment.setup.now.names.documents) accesses.now }
    requires decided { IsDecided setting.now accesses.now refused }
    ensures { IfOk result (λ line. line.items ≡ decision_line setting.now accesses.now refused) }
{
    match refused {
        Some(refused) => first_line(setting, &accesses[refused.place]),
        None => {
            let mut line = Vec::new(setting.alloc);
            line.extend_from_slice(b"granted: ")?;
            line.extend_from_slice(setting.subject_name())?;
            Ok(line)
        }
    }
}

/// What stands before several accesses; nothing before one.
fn heading(
    setting: &Setting<'_>,
    accesses: &[Access],
    refused: Option<Refused>,
) -> Result<Vec<u8>, AllocError>
    requires setting { IsSetting setting.now }
    requires there { All (λ (access : AnyAccess). access.doc < length setting.now.moment.setup.now.names.documents) accesses.now }
    requires decided { IsDecided setting.now accesses.now refused }
    ensures { IfOk result (λ text. text.items ≡ heading setting.now accesses.now refused) }
{
    let mut text = Vec::new(setting.alloc);
    if accesses.len() == 1 {
        return Ok(text);
    }
    let line = decision_line(setting, accesses, refused)?;
    put_line(&mut text, &line)?;
    Ok(text)
}

/// Puts all that is told of each of these accesses behind a text, in their order.
fn put_each(
    text: &mut Vec<u8>,
    setting: &Setting<'_>,
    accesses: &[Access],
) -> Result<(), AllocError>
    requires setting { IsSetting setting.now }
    requires there { All (λ (access : AnyAccess). access.doc < length setting.now.moment.setup.now.names.documents) accesses.now }
    ensures { OnOk result (AreShown setting.now accesses.now text.old.items text.new.items) }
{
    match accesses {
        [] => Ok(()),
        [first, rest @ ..] => {
            let _places = put_access(text, setting, *first)?;
            put_each(text, setting, rest)
        }
    }
}

/// What is told of the accesses of a behaviour, and whether they are granted. An error comes only where a growth is refused.
pub fn tell_accesses(setting: &Setting<'_>, accesses: &[Access]) -> Result<Explained, AllocError>
    requires setting { IsSetting setting.now }
    requires there { All (λ (access : AnyAccess). access.doc < length setting.now.moment.setup.now.names.documents) accesses.now }
    ensures { IfOk result (λ told. TellsAccesses setting.now accesses.now told.text.items told.granted) }
{
    let refused = decided(setting, accesses);
    let mut text = heading(setting, accesses, refused)?;
    put_each(&mut text, setting, accesses)?;
    Ok(Explained {
        text,
        granted: refused.is_none(),
    })
}

//! What a right permits, at which current levels.
ghost use Rattle.std.specs.Prelude.{◌≡◌, ◌<◌, length};
ghost use Rattle.bl_rights.specs.Permissions.{can_be_used, levels_where, permission_of, permission_on};

use bl_explain::grounds::Grounds;
use bl_explain::range::LevelRange;
use bl_level::level::Level;
use bl_policy::access::{Access, Mode};
use bl_policy::id::SubjectId;
use bl_policy::policy::Policy;
use bl_policy::policy::carry::lowest_level;

/// What a right permits to who carries nothing, once its document is there. Law `permissions_say_where` ties it to what is
/// granted.
#[derive(Clone, Copy, PartialEq, Eq, Debug)]
pub enum Permission {
    /// The matrix has no such right.
    NoRight,
    /// The access is granted at the current level of the subject, and would be were the subject not trusted.
    Now,
    /// The access is granted at the current level of the subject, since the subject is trusted.
    Exempt,
    /// The access is granted at no current level.
    Never,
    /// The access is not granted now. It is at the current levels that dominate this one, up to the greatest.
    From(Level),
    /// The access is not granted now. It is at this current level alone.
    At(Level),
    /// The access is not granted now. It is at the current levels that this one dominates.
    UpTo(Level),
}

impl Permission {
    /// Whether the right can be used: now, or at some current level of the subject.
    pub fn can_be_used(self) -> bool
        ensures { result ≡ can_be_used self }
    {
        match self {
            Permission::NoRight | Permission::Never => false,
            Permission::Now
            | Permission::Exempt
            | Permission::From(_)
            | Permission::At(_)
            | Permission::UpTo(_) => true,
        }
    }
}

/// What is said of the current levels at which an access in this mode is granted.
fn levels_where(mode: Mode, range: Option<LevelRange>) -> Permission
    ensures { result ≡ levels_where mode range }
{
    let Some(range) = range else {
        return Permission::Never;
    };
    match mode {
        Mode::Read => Permission::From(range.lowest),
        Mode::Append => Permission::UpTo(range.highest),
        Mode::Write => Permission::At(range.lowest),
    }
}

/// What a right in this mode permits on these grounds.
fn permission_on(grounds: &Grounds, mode: Mode) -> Permission
    ensures { result ≡ permission_on grounds.now mode }
{
    if !grounds.allowed {
        Permission::NoRight
    } else if grounds.is_exempt(mode) {
        Permission::Exempt
    } else if grounds.tests(mode).fails_first().is_none() {
        Permission::Now
    } else {
        levels_where(mode, grounds.range(mode))
    }
}

/// What the right to this access permits to a subject that carries nothing, once the document is there, whether or not it is
/// there now.
pub fn permission_of(policy: &Policy, subject: SubjectId, access: &Access) -> Permission
    requires known { subject < length policy.now.subjects }
    requires there { access.now.doc < length policy.now.documents }
    ensures { result ≡ permission_of policy.now subject access.now }
{
    let found = Grounds::of(policy, subject, &lowest_level(), access);
    let grounds = Grounds {
        present: true,
        ..found
    };
    permission_on(&grounds, access.mode)
}

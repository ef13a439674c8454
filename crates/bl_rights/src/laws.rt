//! Laws: that a right permits just what is granted, for every policy.
//!
//! Each function does nothing, and its contract is the law.
ghost use Rattle.std.specs.Prelude.{◌≡◌, ◌↔◌, ◌<◌, ℕ, IsTrue, false, length, true};
ghost use Rattle.bl_level.specs.Level.{SecurityLevel, Dominates};
ghost use Rattle.bl_policy.specs.Policy.{SecurityPolicy, allows, greatest_of, is_present, lowest, with_current};
ghost use Rattle.bl_policy.specs.Properties.{IsGranted, is_simple};
ghost use Rattle.bl_policy.specs.declared.access.Access.{Access};
ghost use Rattle.bl_rights.specs.Permissions.{IsPermittedAt, is_permitted_now, permission_of};
ghost use Rattle.bl_rights.specs.declared.permission.Permission.TheVariants.{Never, NoRight};

use bl_explain::laws::{granted_at_just_these_levels, what_fails_first_decides};
use bl_level::level::{dominance_is_antisymmetric, dominates_means_dominance};

/// Of a document that is there, and of a subject that carries nothing: an access is granted at the current level just where
/// the permission says so. Where it is not, it would be granted at just those other current levels, below the greatest one,
/// of which the permission says so. It is no right just where the matrix has none, and a right is never permitted just where
/// the simple-security property forbids the access.
pub fn permissions_say_where()
    ensures now { (p : SecurityPolicy) (s : ℕ) (access : Access) → IsTrue (is_present p access.doc) →
        IsTrue (is_permitted_now (permission_of p s access)) ↔ IsGranted p s lowest access.doc access.mode }
    ensures levels { (p : SecurityPolicy) (s : ℕ) (access : Access) (current : SecurityLevel) → IsTrue (is_present p access.doc) →
        s < length p.subjects → Dominates (greatest_of p s) current → is_permitted_now (permission_of p s access) ≡ false →
        IsGranted (with_current p s current) s lowest access.doc access.mode ↔ IsPermittedAt (permission_of p s access) current }
    ensures rights { (p : SecurityPolicy) (s : ℕ) (access : Access) →
        (permission_of p s access ≡ NoRight) ↔ (allows p s access.doc access.mode ≡ false) }
    ensures never { (p : SecurityPolicy) (s : ℕ) (access : Access) → (permission_of p s access ≡ Never) ↔
        ((allows p s access.doc access.mode ≡ true) × (is_simple p s access.doc access.mode ≡ false)) }
{
    what_fails_first_decides();
    granted_at_just_these_levels();
    dominance_is_antisymmetric();
    dominates_means_dominance();
}

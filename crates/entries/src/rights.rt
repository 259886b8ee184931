ghost use Rattle.std.specs.Prelude.{◌≡◌, ℕ, ◌^◌, ◌<◌, max, true, false, nat_lt, slice_index};
ghost use Rattle.std.proofs.Common.{ap};
ghost use Rattle.entries.specs.Rights.{blank_rights, join_rights, stamp_in, rights_stamp, sound_rights, saying, is_granted, LatestWordDecides, of_roles};
ghost use Rattle.entries.specs.Roles.{greater_idem, greater_comm, greater_assoc};

use crate::kind::{Dated, Joinable};
use names::Stamp;
use std::array;

// What was said of each of the roles 0 to 7, as a number: twice the stamp, and one more for a grant; 0 where nothing was.
#[derive(Clone, Copy, Debug, PartialEq, Eq)]
pub struct Rights {
    pub roles: [u64; 8],
}

impl Rights {
    // The entry that says one thing: the role is granted, or withdrawn, at the stamp.
    // None for a role above 7, or for a stamp that no sound entry has.
    fn saying(role: usize, granted: bool, stamp: Stamp) -> Option<Rights>
        ensures { result ≡ saying role granted stamp }
    {
        if role >= 8 || stamp >= 1 << 40 {
            return None;
        }
        let number = if granted { 2 * stamp + 1 } else { 2 * stamp };
        let mut roles = [0; 8];
        roles[role] = number;
        Some(Rights { roles })
    }

    // The entry that grants the role at the stamp.
    pub fn granted(role: usize, stamp: Stamp) -> Option<Rights>
        ensures { result ≡ saying role true stamp }
    {
        Rights::saying(role, true, stamp)
    }

    // The entry that withdraws the role at the stamp.
    pub fn withdrawn(role: usize, stamp: Stamp) -> Option<Rights>
        ensures { result ≡ saying role false stamp }
    {
        Rights::saying(role, false, stamp)
    }

    // Whether the last word on the role is a grant. No role above 7 is granted.
    pub fn is_granted(&self, role: usize) -> bool
        ensures { result ≡ is_granted self.now role }
    {
        role < 8 && self.roles[role] % 2 == 1
    }
}

// The greater of two numbers for each role: of what was said of it, the last word.
fn greater_of_each(a: [u64; 8], b: [u64; 8]) -> [u64; 8]
    ensures { (k : ℕ) → k < 8 → slice_index result k ≡ max (slice_index a k) (slice_index b k) }
{
    array::from_fn(|i| a[i].max(b[i]))
}

// Whether a sound entry may have the number for a role.
fn is_role_number(number: u64) -> bool
    ensures { result ≡ nat_lt number (2 ^ 41) }
{
    number < 1 << 41
}

// The stamp of the word that a role's number says.
fn stamp_in(number: u64) -> Stamp
    ensures { result ≡ stamp_in number }
{
    number / 2
}

impl Joinable for Rights {
    ghost empty = { blank_rights };

    ghost joined = { join_rights };

    ghost idempotent = { λ a. ap of_roles (greater_idem a.roles) };

    ghost commutative = { λ a b. ap of_roles (greater_comm a.roles b.roles) };

    ghost associative = { λ a b c. ap of_roles (greater_assoc a.roles b.roles c.roles) };

    fn blank() -> Rights {
        Rights { roles: [0; 8] }
    }

    fn join(self, other: Rights) -> Rights {
        Rights {
            roles: greater_of_each(self.roles, other.roles),
        }
    }
}

impl Dated for Rights {
    ghost dated = { rights_stamp };

    ghost formed = { sound_rights };

    fn stamp(&self) -> Stamp {
        let mut greatest: u64 = 0;
        'roles: for role in self.roles {
            greatest = greatest.max(role);
        }
        stamp_in(greatest)
    }

    fn is_sound(&self) -> bool {
        'roles: for role in self.roles {
            if !is_role_number(role) {
                return false;
            }
        }
        true
    }
}

// Of two words on a role the one with the later stamp decides, and of a grant and a withdrawal at one stamp the grant.
pub fn the_latest_word_on_a_role_decides()
    ensures { LatestWordDecides }
{}

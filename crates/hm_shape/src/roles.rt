//! The roles of a caller's regions, in one word: two bits for each of eight regions, the first region's the lowest.
//!
//! ```text
//!   63 .. 16   15 .. 14         3 .. 2     1 .. 0
//! +----------+----------+-----+----------+----------+
//! | 0        | region 7 | ... | region 1 | region 0 |
//! +----------+----------+-----+----------+----------+
//! ```
ghost use Rattle.std.specs.Prelude.{◌≡◌, ◌≢◌, ◌^◌, ◌<◌, ◌≤◌, ◌↔◌, Some, IfSome, IsNone};

/// How many roles there are: what region 1 adds to the word for each 1 of region 0.
const ROLES: u64 = 4;

/// Words of roles are below this: eight regions take 16 bits.
pub const ROLES_END: u64 = 1 << 16;

/// What a region is used for.
#[derive(Clone, Copy, Debug, PartialEq, Eq)]
pub enum Role {
    /// For nothing: it has no versions.
    Free,
    /// Its caller makes its next versions there. In the field: to-space.
    To,
    /// It was To, and is full.
    Old,
    /// Its caller left it at a join: what is still named there is copied out. In the field: from-space.
    From,
}

impl Role {
    ghost use Rattle.hm_shape.specs.Words.{role_number};

    // The number of the role.
    fn number(self) -> u64
        ensures { result ≡ role_number self }
    {
        match self {
            Role::Free => 0,
            Role::To => 1,
            Role::Old => 2,
            Role::From => 3,
        }
    }

    // The role of the number.
    fn numbered(number: u64) -> Role
        requires { number < ROLES }
        ensures { role_number result ≡ number }
    {
        match number {
            0 => Role::Free,
            1 => Role::To,
            2 => Role::Old,
            _ => Role::From,
        }
    }
}

/// The role of each region of a caller. Regions that the heap does not have are Free.
#[derive(Clone, Copy, Debug, PartialEq, Eq)]
pub struct Roles(pub [Role; 8]);

impl Roles {
    ghost use Rattle.hm_shape.specs.Words.{IsRoles, roles_word};

    /// The word of the roles. No others have it.
    pub fn pack(&self) -> u64
        ensures value { result ≡ roles_word self.now }
        ensures below { result < 2 ^ 16 }
        ensures apart { (other : Roles) → IsRoles other → roles_word other ≡ result
            → other ≡ self.now }
    {
        let mut word = 0;
        for role in self.0.iter().rev() {
            word = word * ROLES + role.number();
        }
        word
    }

    /// The roles of the word; none where it takes more than 16 bits.
    pub fn unpack(word: u64) -> Option<Roles>
        ensures packs { IfSome result (λ roles. roles_word roles ≡ word) }
        ensures back { (roles : Roles) → IsRoles roles → roles_word roles ≡ word
            → result ≡ Some roles }
        ensures none { IsNone result ↔ (2 ^ 16 ≤ word) }
        ensures exact { IsNone result
            ↔ ((roles : Roles) → IsRoles roles → roles_word roles ≢ word) }
    {
        let mut roles = [Role::Free; 8];
        let mut rest = word;
        for role in &mut roles {
            *role = Role::numbered(rest % ROLES);
            rest /= ROLES;
        }
        if rest == 0 { Some(Roles(roles)) } else { None }
    }
}

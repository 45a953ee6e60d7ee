//! What a caller knows of itself in running words: where its versions lie, and where it stands in a cycle.
ghost use Rattle.std.specs.Prelude.{◌≡◌, ◌<◌, ◌≤◌, ◌-◌, IfSome};
ghost use Rattle.hm_shape.specs.Versions.{IsVersionOf};
ghost use Rattle.hm_cells.specs.Owns.{IsGround, IsTaking, cursor_at, first_to, found_from, free_in, fresh_own, has_all, kept_in, knows_from, loading, masking, moving_to, own_version, passing, scans_in, shifting, stops_at, unmasked};

use hm_moves::Seen;
use hm_shape::{LINK, MOST_CALLERS, Phase, Reply, Role, Roles, Shape, Version};

/// How many words of a version name versions: its link and its references.
const FIELDS: u64 = 5;

/// Where a caller stands in a cycle.
#[derive(Clone, Copy)]
pub(crate) struct Watch {
    /// The stage that it saw last.
    pub stage: Seen,
    /// Its last reply, if it has replied to a stage.
    pub reply: Option<Reply>,
    /// What each of its regions is used for.
    pub roles: Roles,
    /// Whether it has joined, and freed nothing since.
    pub joined: bool,
    /// How many cycles were done when it joined last.
    pub done: u32,
    /// Of each caller the roles that it has loaded as a mask, if any. Behind the heap's callers there is none.
    pub masks: [Option<Roles>; 8],
    /// Whether it has met from-space outside of its scan.
    pub mark: bool,
    /// How many links and references of its own versions its scan has passed.
    pub cursor: u64,
}

/// What a caller knows of itself.
#[derive(Clone, Copy)]
pub(crate) struct Own {
    pub shape: Shape,
    /// Which of the heap's callers it is.
    pub number: u32,
    /// Its To region.
    pub region: u32,
    // The number of that region's first version, and how many of its places are used: their sum is the next version's
    // number, without a look at the shape between two stores.
    pub to: u32,
    pub used: u32,
    /// The number of the first version of its Old region, if it has one. All places of that are used.
    pub full: Option<u32>,
    pub watch: Watch,
}

impl Watch {
    /// Whether the caller has seen a First and not replied to it.
    pub fn scans(&self) -> bool
        ensures { result ≡ scans_in self.now }
    {
        if self.stage.phase != Phase::First {
            return false;
        }
        match self.reply {
            Some(reply) => reply.number < self.stage.number,
            None => true,
        }
    }
}

impl Own {
    /// What a caller of a fresh heap knows of itself, of whose first region so many places are used.
    pub fn fresh(shape: Shape, number: u32, used: u32) -> Own
        requires { number < shape.callers }
        ensures { result ≡ fresh_own shape number used }
    {
        let mut roles = [Role::Free; 8];
        roles[0] = Role::To;
        Own {
            shape,
            number,
            region: 0,
            to: Version::at(shape, number, 0, 0).0,
            used,
            full: None,
            watch: Watch {
                stage: Seen {
                    number: 0,
                    done: 0,
                    phase: Phase::Idle,
                },
                reply: None,
                roles: Roles(roles),
                joined: false,
                done: 0,
                masks: [None; MOST_CALLERS as usize],
                mark: false,
                cursor: 0,
            },
        }
    }

    /// Whether the caller knows a version as from-space: its mask of the owner gives the version's region as From.
    pub fn knows_from(&self, v: Version) -> bool
        requires { IsVersionOf self.now.shape v }
        ensures { result ≡ knows_from self.now v }
    {
        match self.watch.masks[v.owner(self.shape) as usize] {
            Some(roles) => roles.0[v.region(self.shape) as usize] == Role::From,
            None => false,
        }
    }

    /// Whether it knows what was found as from-space.
    pub fn finds_from(&self, found: Option<Version>) -> bool
        requires { IfSome found (IsVersionOf self.now.shape) }
        ensures { result ≡ found_from self.now found }
    {
        match found {
            Some(v) => self.knows_from(v),
            None => false,
        }
    }

    /// Whether it has the masks of all callers.
    pub fn has_all(&self) -> bool
        ensures { result ≡ has_all self.now }
    {
        let callers = self.shape.callers as usize;
        self.watch.masks[..callers]
            .iter()
            .all(|mask| mask.is_some())
    }

    /// How many of its regions are Free.
    pub fn free(&self) -> u32
        ensures count { result ≡ free_in self.now }
        ensures few { result ≤ self.now.shape.regions }
    {
        let regions = self.shape.regions as usize;
        let free = self.watch.roles.0[..regions]
            .iter()
            .filter(|role| **role == Role::Free);
        free.count() as u32
    }

    /// How many Free regions it may turn to: all but one, and but another one where it has not joined.
    pub fn spare(&self) -> u32
        ensures count { result ≡ free_in self.now - kept_in self.now }
        ensures few { result ≤ self.now.shape.regions }
    {
        let kept = if self.watch.joined { 1 } else { 2 };
        self.free().saturating_sub(kept)
    }

    /// The i-th of its versions in To and Old, in order of publishing, counted from 0; None where there are no more
    /// than `i`.
    pub fn version(&self, i: u32) -> Option<Version>
        requires { IsGround self.now }
        ensures { result ≡ own_version self.now i }
    {
        match self.full {
            Some(first) if i < self.shape.versions => Some(Version(first + i)),
            Some(_) if i - self.shape.versions < self.used => {
                Some(Version(self.to + (i - self.shape.versions)))
            }
            None if i < self.used => Some(Version(self.to + i)),
            _ => None,
        }
    }

    /// Whether its scan has come to word `i` of a version.
    pub fn is_at_cursor(&self, v: Version, i: u32) -> bool
        requires { IsGround self.now }
        ensures { result ≡ cursor_at self.now v i }
    {
        let field = self.watch.cursor % FIELDS;
        let word = if field == 0 { LINK } else { field as u32 + 1 };
        match self.version((self.watch.cursor / FIELDS) as u32) {
            Some(next) => next == v && i == word,
            None => false,
        }
    }

    /// Notes what a load of word `i` of a version found, and answers whether a scan stops there.
    pub fn load(&mut self, scan: bool, v: Version, i: u32, found: Option<Version>) -> bool
        requires ground { IsGround self.old }
        requires found { IfSome found (IsVersionOf self.old.shape) }
        ensures own { self.new ≡ loading self.old scan v i found }
        ensures stops { result ≡ stops_at self.old scan found }
    {
        let from = self.finds_from(found);
        if !scan || !self.watch.scans() {
            self.watch.mark = self.watch.mark || from;
            return false;
        }
        if !from {
            self.pass(v, i);
        }
        from
    }

    /// Passes word `i` of a version, where its scan has come there.
    pub fn pass(&mut self, v: Version, i: u32)
        requires { IsGround self.old }
        ensures { self.new ≡ passing self.old v i }
    {
        if self.has_all() && self.is_at_cursor(v, i) {
            self.watch.cursor += 1;
        }
    }

    /// Notes a load of a caller's roles: a mask, once it has seen a First. Where it scans, its scan begins anew.
    pub fn mask(&mut self, of: u32, roles: Roles)
        requires { of < self.old.shape.callers }
        ensures { self.new ≡ masking self.old of roles }
    {
        if self.watch.scans() {
            self.watch.cursor = 0;
            self.watch.mark = self.watch.mark && of != self.number;
        }
        if self.watch.stage.phase == Phase::First {
            self.watch.masks[of as usize] = Some(roles);
        }
    }

    /// Takes new roles, by a join, a turn or a reuse: which it is the new role of its To region tells.
    pub fn shift(&mut self, roles: Roles)
        requires ground { IsGround self.old }
        requires taking { IsTaking self.old roles }
        ensures { self.new ≡ shifting self.old roles }
    {
        match roles.0[self.region as usize] {
            Role::From => {
                self.full = None;
                self.watch.joined = true;
                self.watch.done = self.watch.stage.done;
                self.drop_masks();
                self.move_to(&roles);
            }
            Role::Old => {
                self.full = Some(self.to);
                self.move_to(&roles);
            }
            _ => {
                self.watch.joined = false;
                self.drop_masks();
            }
        }
        self.watch.roles = roles;
    }

    // It has no masks, and its scan has passed nothing.
    fn drop_masks(&mut self)
        ensures { self.new ≡ unmasked self.old }
    {
        self.watch.masks = [None; MOST_CALLERS as usize];
        self.watch.cursor = 0;
    }

    // Its To region is the one that the roles say, and no place of that is used.
    fn move_to(&mut self, roles: &Roles)
        requires ground { IsGround self.old }
        requires taking { IsTaking self.old roles.now }
        ensures { self.new ≡ moving_to self.old (first_to roles.now.0) }
    {
        self.region = region_of_to(roles);
        self.to = Version::at(self.shape, self.number, self.region, 0).0;
        self.used = 0;
    }
}

// The first region that is To.
fn region_of_to(roles: &Roles) -> u32
    ensures { result ≡ first_to roles.now.0 }
{
    let at = roles.0.iter().position(|role| *role == Role::To);
    at.unwrap_or(roles.0.len()) as u32
}

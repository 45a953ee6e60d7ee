//! How a random walk chooses its next step: what brings the cycle on, what makes and stores objects, or anything.
use crate::play::{copy, field, look, reply, reply_of, roles, roles_of, shorten, to};
use crate::table::{Walk, done_in, is_set, number, role_in};
use hm_core::{Step, StepKind};
use hm_shape::{ReplyKind, Version};

// What the number of a stage adds to its word.
const STAGE: u64 = 4294967296;

impl Walk {
    // The next step.
    pub(crate) fn choose(&mut self) -> Step {
        let most = self.callers;
        let mut caller = self.draw(most);
        let kind = match self.draw(16) {
            0..=8 => self.tend(caller),
            9..=13 => self.work(caller),
            _ => self.wild(caller),
        };
        if self.draw(500) == 0 {
            caller = self.draw(most.wrapping_add(1));
        }
        Step {
            caller,
            kind,
            let_go: self.drop_one(caller),
        }
    }

    // A version to let go: more often one of from-space. Rarely one that may not be held.
    fn drop_one(&mut self, c: u32) -> Option<Version> {
        if self.draw(3) != 0 {
            return None;
        }
        let v = self.some_held(c);
        let chance = if self.draw(150) == 0 {
            let count = self.count();
            return Some(Version(self.draw(count)));
        } else if self.is_from(v) && self.is_spent(c, v) {
            1
        } else {
            match self.held_count(c) {
                0..=2 => return None,
                3 | 4 => 14,
                _ => 2,
            }
        };
        if self.draw(chance) == 0 && self.holds(c, v) {
            Some(Version(v))
        } else {
            None
        }
    }

    // Whether a caller holds the version that the link of this one names.
    fn is_spent(&self, c: u32, v: u32) -> bool {
        match Version::named(self.of(v, 0)) {
            Some(later) => self.holds(c, later.0),
            None => false,
        }
    }

    // How many versions a caller holds.
    fn held_count(&self, c: u32) -> u32 {
        let mut count = 0u32;
        for v in 0..self.count() {
            if self.holds(c, v) {
                count = count.wrapping_add(1);
            }
        }
        count
    }

    // Some version that a caller holds, if there is one.
    fn some_held(&mut self, c: u32) -> u32 {
        let count = self.count();
        let start = self.draw(count);
        for v in start..count {
            if self.holds(c, v) {
                return v;
            }
        }
        for v in 0..start {
            if self.holds(c, v) {
                return v;
            }
        }
        start
    }

    // Some version that a caller may look into, if there is one.
    pub(crate) fn some_seen(&mut self, c: u32) -> u32 {
        let count = self.count();
        let start = self.draw(count);
        for v in start..count {
            if self.may_look(c, v) {
                return v;
            }
        }
        for v in 0..start {
            if self.may_look(c, v) {
                return v;
            }
        }
        start
    }

    // What brings the cycle on, by the stage that the caller saw.
    fn tend(&mut self, c: u32) -> StepKind {
        let seen = number(&self.seen, c);
        if seen != self.stage() && self.draw(5) != 0 {
            return StepKind::LoadStage;
        }
        match seen % 4 {
            0 => self.tend_idle(c, seen),
            1 => self.tend_join(c, seen),
            2 => self.tend_first(c, seen),
            _ => self.tend_second(c, seen),
        }
    }

    // In Idle from-space is freed, and a cycle begins.
    fn tend_idle(&mut self, c: u32, seen: u64) -> StepKind {
        if self.count_role(c, 3) > 0 && self.draw(3) != 0 {
            return roles(self.roles_with(c, [0, 1, 2, 0], false));
        }
        match self.draw(4) {
            0 => to(seen.wrapping_add(STAGE + 1)),
            _ => self.work(c),
        }
    }

    // In Join a caller joins, replies, and looks whether all did.
    fn tend_join(&mut self, c: u32, seen: u64) -> StepKind {
        if self.draw(300) == 0 {
            return to(seen.wrapping_add(STAGE));
        }
        if self.has_replied(c, seen) {
            return match self.draw(4) {
                0 => self.build(c),
                _ => self.ask(seen.wrapping_add(STAGE + 1)),
            };
        }
        if number(&self.join, c) == seen / STAGE {
            return reply(ReplyKind::Joined);
        }
        roles(self.joined(c, seen))
    }

    // In First it scans and replies. In some a caller is long at work before that, so that others read what it stores.
    fn tend_first(&mut self, c: u32, seen: u64) -> StepKind {
        if self.draw(500) == 0 {
            return to(seen.wrapping_add(STAGE).wrapping_sub(1));
        }
        if self.has_replied(c, seen) {
            return match self.draw(4) {
                0 => self.ask(seen.wrapping_add(STAGE + 1)),
                1 => self.build(c),
                _ => self.peek(c),
            };
        }
        let busy = if seen / STAGE % 3 == u64::from(c) {
            7
        } else {
            2
        };
        if self.draw(8) < busy {
            return self.build(c);
        }
        for p in 0..self.callers {
            if !is_set(&self.masks, 3, c, p) {
                return roles_of(p);
            }
        }
        self.scan(c)
    }

    // A load of an object call.
    fn peek(&mut self, c: u32) -> StepKind {
        let start = self.some_seen(c);
        let scan = self.draw(3) == 0;
        for v in start..self.count() {
            if self.may_look(c, v) && !self.owns(c, v) {
                for j in [0u32, 2, 3, 4, 5] {
                    if self.names_from(v, j) {
                        return load(v, j, scan);
                    }
                }
            }
        }
        load(start, 0, scan)
    }

    // In Second it replies by its mark, which the walk guesses.
    fn tend_second(&mut self, c: u32, seen: u64) -> StepKind {
        if self.draw(500) == 0 {
            return to(seen.wrapping_add(STAGE).wrapping_sub(2));
        }
        if !self.has_replied(c, seen) {
            return match self.draw(2) {
                0 => reply(ReplyKind::Clean),
                _ => reply(ReplyKind::Dirty),
            };
        }
        match self.draw(2) {
            0 => self.ask(seen.wrapping_add(STAGE).wrapping_sub(1)),
            _ => self.ask(seen.wrapping_add(STAGE + 4).wrapping_sub(3)),
        }
    }

    // A load of some caller's reply, or the exchange.
    fn ask(&mut self, next: u64) -> StepKind {
        let callers = self.callers;
        let p = self.draw(callers.wrapping_add(1));
        if p < callers { reply_of(p) } else { to(next) }
    }

    // Whether a caller has replied to the stage of a word.
    fn has_replied(&self, c: u32, seen: u64) -> bool {
        self.reply(c) != 0 && self.reply(c) / 4 == seen / STAGE
    }

    // How many of a caller's regions have a role.
    pub(crate) fn count_role(&self, c: u32, role: u64) -> u32 {
        let mut count = 0u32;
        for region in 0..4u32 {
            if role_in(self.roles(c), region) == role {
                count = count.wrapping_add(1);
            }
        }
        count
    }

    // A caller's roles, each changed to another, and then the lowest Free region To, if one is to be taken.
    fn roles_with(&self, c: u32, change: [u64; 4], takes: bool) -> u64 {
        let mut word = 0u64;
        let mut takes = takes;
        for region in 0..4u32 {
            let place = role_in(self.roles(c), region) as usize;
            let mut role = change.get(place).copied().unwrap_or(0);
            if role == 0 && takes {
                role = 1;
                takes = false;
            }
            word = word.wrapping_add(role.wrapping_shl(region.wrapping_mul(2)));
        }
        word
    }

    // The roles after a join.
    fn joined(&self, c: u32, seen: u64) -> u64 {
        let from = if number(&self.done, c) < done_in(seen) {
            0
        } else {
            3
        };
        self.roles_with(c, [0, 3, 3, from], true)
    }

    // The roles after a turn.
    fn turned(&self, c: u32) -> u64 {
        self.roles_with(c, [0, 2, 2, 3], true)
    }

    // A step of a scan: own words come to name nothing of from-space, then held versions are copied or let go. The reply
    // comes where nothing is left.
    fn scan(&mut self, c: u32) -> StepKind {
        for v in 0..self.count() {
            if self.owns(c, v) {
                for j in [0u32, 2, 3, 4, 5] {
                    if self.names_from(v, j) {
                        return self.mend(c, v, j);
                    }
                }
            }
        }
        for v in 0..self.count() {
            if self.holds(c, v) && self.is_from(v) {
                return self.leave(c, v);
            }
        }
        match self.draw(4) {
            0 => look(self.some_seen(c), true),
            _ => reply(ReplyKind::Clean),
        }
    }

    // Whether word `j` of a version names one of from-space.
    fn names_from(&self, v: u32, j: u32) -> bool {
        match Version::named(self.of(v, j)) {
            Some(w) => self.is_from(w.0),
            None => false,
        }
    }

    // Word `j` of an own version, which names one of from-space, comes to name a later one: step by step along the chain.
    fn mend(&mut self, c: u32, v: u32, j: u32) -> StepKind {
        let Some(mut at) = Version::named(self.of(v, j)) else {
            return StepKind::LoadStage;
        };
        if !self.may_look(c, at.0) {
            return load(v, j, true);
        }
        for _ in 0..48u32 {
            let Some(later) = Version::named(self.of(at.0, 0)) else {
                return self.copy(c, at.0);
            };
            if !self.holds(c, later.0) {
                return look(at.0, true);
            }
            if !self.is_from(later.0) {
                return shorten(v, j, later.0);
            }
            at = later;
        }
        StepKind::LoadStage
    }

    // A held version of from-space is copied, where it is the last of its object, and else left.
    fn leave(&mut self, c: u32, v: u32) -> StepKind {
        match Version::named(self.of(v, 0)) {
            None => match self.draw(3) {
                0 => reply_of(c),
                _ => self.copy(c, v),
            },
            Some(later) => {
                if self.holds(c, later.0) {
                    reply_of(c)
                } else {
                    look(v, true)
                }
            }
        }
    }

    // The next step on the way to a copy of a version.
    fn copy(&mut self, c: u32, v: u32) -> StepKind {
        let words = match self.like(c, v) {
            Ok(words) => words,
            Err(kind) => return kind,
        };
        match self.unwritten(c, &words) {
            Some(kind) => kind,
            None => copy(v),
        }
    }

    // The words of a copy of a version, or the load of a reference that is not held yet.
    pub(crate) fn like(&self, c: u32, v: u32) -> Result<[u64; 16], StepKind> {
        let mut words = [0u64; 16];
        for j in 1..16u32 {
            let word = self.of(v, j);
            words[j as usize] = word;
            if (2..6).contains(&j) && word != 0 {
                words[j as usize] = self.latest(c, word).ok_or(field(v, j, true))?;
            }
        }
        Ok(words)
    }

    // The name of the last version of an object that a caller holds behind the one that a word names.
    fn latest(&self, c: u32, word: u64) -> Option<u64> {
        let mut word = word;
        let first = Version::named(word)?;
        if !self.holds(c, first.0) {
            return None;
        }
        for _ in 0..48u32 {
            let at = Version::named(word)?;
            match Version::named(self.of(at.0, 0)) {
                Some(later) if self.holds(c, later.0) => word = later.name(),
                _ => return Some(word),
            }
        }
        Some(word)
    }

    // The store of the first word of the caller's next version that is not written so, or a turn where there is no place.
    pub(crate) fn unwritten(&self, c: u32, words: &[u64; 16]) -> Option<StepKind> {
        let Some(v) = self.next(c) else {
            return Some(roles(self.turned(c)));
        };
        for i in 0..16u32 {
            let word = words[i as usize];
            if !is_set(&self.written, 16, c, i) || self.of(v, i) != word {
                return Some(StepKind::StoreOwn { i, word });
            }
        }
        None
    }
}

// A load of a version's link or reference.
fn load(v: u32, j: u32, scan: bool) -> StepKind {
    if j == 0 {
        look(v, scan)
    } else {
        field(v, j, scan)
    }
}

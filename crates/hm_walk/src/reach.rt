//! The check of a random walk: what can be reached by the words of the Table is there, and names stand for the objects
//! that they were written for.
use crate::table::{Walk, done_in, name_at, number};
use hm_shape::Version;

impl Walk {
    // What makes a version that can be reached one that is none, or 0.
    fn fault(&self, v: u32) -> u32 {
        let owner = v / 16;
        match self.role(v / 4) {
            0 => return 1,
            1 => {
                if u64::from(v % 4) >= number(&self.used, owner) {
                    return 2;
                }
            }
            3 => {
                if number(&self.done, owner) != done_in(self.stage()) {
                    return 3;
                }
            }
            _ => {}
        }
        for i in 0..4u32 {
            let refers = name_at(&self.refs, v.wrapping_mul(4).wrapping_add(i));
            if self.name_of(self.of(v, i + 2)) != refers {
                return 4;
            }
        }
        let link = self.of(v, 0);
        if link != 0 && self.name_of(link) != name_at(&self.names, v) {
            return 5;
        }
        0
    }

    // Whether some caller may look into a version.
    fn is_root(&self, v: u32) -> bool {
        for c in 0..self.callers {
            if self.holds(c, v) {
                return true;
            }
        }
        self.owns(v / 16, v)
    }

    // The versions that callers may look into, and those that these reach by links and references.
    fn reached(&self) -> Reached {
        let mut reached = Reached {
            marks: [false; 48],
            list: [0; 48],
            count: 0,
        };
        for v in 0..self.count() {
            if self.is_root(v) {
                reached.add(v);
            }
        }
        for at in 0..48usize {
            if at >= reached.count {
                return reached;
            }
            for i in [0u32, 2, 3, 4, 5] {
                if let Some(w) = Version::named(self.of(reached.list[at], i)) {
                    reached.add(w.0);
                }
            }
        }
        reached
    }

    // The first version that is reached and is none, with what is wrong.
    pub(crate) fn first_fault(&self) -> Option<(u32, u32)> {
        let reached = self.reached();
        for at in 0..48usize {
            if at < reached.count {
                let v = reached.list[at];
                let fault = self.fault(v);
                if fault != 0 {
                    return Some((v, fault));
                }
            }
        }
        None
    }
}

// The versions that are reached: a mark for each, and a list of them.
#[derive(Drop)]
struct Reached {
    marks: [bool; 48],
    list: [u32; 48],
    count: usize,
}

impl Reached {
    // A version is reached, once.
    fn add(&mut self, v: u32) {
        let at = v as usize;
        if at < 48 && !self.marks[at] && self.count < 48 {
            self.marks[at] = true;
            self.list[self.count] = v;
            self.count += 1;
        }
    }
}

//! The steps of a random walk that make, read and store objects, and those that are anything.
use crate::play::{copy, field, look, reply, reply_of, roles, roles_of, shorten, to};
use crate::table::{Walk, name_at, number, put};
use hm_core::{Other, StepKind};
use hm_model::{Contents, Entry, Field, Name, Tried};
use hm_shape::{ReplyKind, Version};

// A caller whose goal is this makes a new object.
const NEW: u64 = 99;

impl Walk {
    // A step of an object call.
    pub(crate) fn work(&mut self, c: u32) -> StepKind {
        let v = self.some_seen(c);
        match self.draw(10) {
            0 => {
                let i = 2u32.wrapping_add(self.draw(4));
                let scan = self.draw(4) == 0;
                field(v, i, scan)
            }
            1 => {
                let scan = self.draw(4) == 0;
                look(v, scan)
            }
            2 => StepKind::LoadLink {
                v: Version(v),
                entry: self.reading(c, v),
                scan: false,
            },
            _ => self.build(c),
        }
    }

    // An entry that reads a version.
    fn reading(&mut self, c: u32, v: u32) -> Option<Entry> {
        let name = name_at(&self.names, v)?;
        if self.draw(2) == 0 {
            return Some(Entry::Fetch {
                caller: c,
                name,
                answer: self.contents(v),
            });
        }
        let stamp = self.of(v, 1);
        Some(Entry::StoreIf {
            caller: c,
            name,
            stamp: stamp.wrapping_add(1),
            refs: [None; 4],
            numbers: [3; 10],
            answer: Tried::Changed { stamp },
        })
    }

    // The contents of a version, by its words.
    fn contents(&self, v: u32) -> Contents {
        let mut refs = [None; 4];
        let mut numbers = [0u64; 10];
        for i in 0..4u32 {
            refs[i as usize] = self.name_of(self.of(v, i + 2));
        }
        for i in 0..10u32 {
            numbers[i as usize] = self.of(v, i + 6);
        }
        Contents {
            stamp: self.of(v, 1),
            refs,
            numbers,
        }
    }

    // A step on the way to what the caller makes or stores.
    pub(crate) fn build(&mut self, c: u32) -> StepKind {
        let goal = number(&self.goal, c);
        let v = goal.min(NEW) as u32;
        if self.draw(60) == 0 || (goal != NEW && !self.may_look(c, v)) {
            let new = match self.draw(4) {
                0 => NEW,
                _ => u64::from(self.some_seen(c)),
            };
            put(&mut self.goal, c, new);
            return StepKind::LoadStage;
        }
        if !self.may_fill(c) {
            return look(v, false);
        }
        if goal == NEW {
            return self.make(c);
        }
        let later = self.of(v, 0);
        if later != 0 && self.draw(8) != 0 {
            put(&mut self.goal, c, later.wrapping_sub(1));
            return look(v, false);
        }
        self.store(c, v)
    }

    // Whether a caller may use a place more and have room for copies.
    fn may_fill(&self, c: u32) -> bool {
        let (free, used) = (self.count_role(c, 0), number(&self.used, c));
        if number(&self.seen, c) % 4 == 0 {
            free > 2 || (free == 2 && used < 3)
        } else {
            free > 1 && used < 3
        }
    }

    // A step on the way to a new object, which refers to one that is held, or to none.
    fn make(&mut self, c: u32) -> StepKind {
        let made = number(&self.made, c);
        let mut words = [0u64; 16];
        let mut refs = [None; 4];
        if made % 2 == 1 {
            words[4] = self.first_held(c);
            refs[2] = self.name_of(words[4]);
        }
        words[6] = made;
        if let Some(kind) = self.unwritten(c, &words) {
            return kind;
        }
        let mut numbers = [0u64; 10];
        numbers[0] = made;
        put(&mut self.goal, c, 0);
        StepKind::Publish {
            entry: Entry::Create {
                caller: c,
                name: Name {
                    maker: c,
                    count: made,
                },
                refs,
                numbers,
            },
        }
    }

    // The name of the first version that a caller holds; 0 where it holds none.
    fn first_held(&self, c: u32) -> u64 {
        for v in 0..self.count() {
            if self.holds(c, v) {
                return u64::from(v) + 1;
            }
        }
        0
    }

    // A step on the way to a store behind a version: of a number, of a reference, or of all, by its stamp.
    fn store(&mut self, c: u32, v: u32) -> StepKind {
        let Some(name) = name_at(&self.names, v) else {
            return StepKind::LoadStage;
        };
        let stamp = self.of(v, 1);
        let mut words = match self.like(c, v) {
            Ok(words) => words,
            Err(kind) => return kind,
        };
        let entry = match stamp % 8 {
            1 | 2 | 4 | 6 | 7 => {
                words[3] = self.first_held(c);
                let value = self.name_of(words[3]);
                let field = Field::Refer { i: 1, value };
                Entry::Store {
                    caller: c,
                    name,
                    field,
                }
            }
            3 => {
                words = all_words(stamp);
                Entry::StoreIf {
                    caller: c,
                    name,
                    stamp,
                    refs: [None; 4],
                    numbers: [stamp; 10],
                    answer: Tried::Stored,
                }
            }
            _ => {
                words[7] = stamp.wrapping_add(7);
                Entry::Store {
                    caller: c,
                    name,
                    field: Field::Number {
                        i: 1,
                        value: words[7],
                    },
                }
            }
        };
        words[1] = stamp.wrapping_add(1);
        match self.unwritten(c, &words) {
            Some(kind) => kind,
            None => StepKind::LinkStore {
                v: Version(v),
                entry,
            },
        }
    }

    // Any step.
    pub(crate) fn wild(&mut self, c: u32) -> StepKind {
        let count = self.count().wrapping_add(2);
        let (v, u) = (self.draw(count), self.some_seen(c));
        match self.draw(16) {
            0 => field(u, self.draw(18), self.draw(2) == 0),
            1 => field(v, self.draw(18), self.draw(2) == 0),
            2 => StepKind::LoadLink {
                v: Version(u),
                entry: self.wrong(c, v),
                scan: false,
            },
            3 => StepKind::StoreOwn {
                i: self.draw(18),
                word: u64::from(self.draw(50)),
            },
            4 => self.wild_publish(c, v, u),
            5 => StepKind::Split,
            6 => self.wild_meeting(),
            7 => StepKind::LoadStage,
            8 => self.wild_stage(),
            9 => reply_of(self.draw(4)),
            10 => roles_of(self.draw(4)),
            11 => reply(ReplyKind::Joined),
            12 => reply(ReplyKind::Clean),
            13 => roles(u64::from(self.draw(256))),
            14 => copy(u),
            _ => shorten(v, self.draw(7), u),
        }
    }

    // An entry that may not read what it is given.
    fn wrong(&mut self, c: u32, v: u32) -> Option<Entry> {
        Some(Entry::Fetch {
            caller: c,
            name: name_at(&self.names, v)?,
            answer: self.contents(v),
        })
    }

    // A step that may publish, with an entry that may not fit.
    fn wild_publish(&mut self, c: u32, v: u32, u: u32) -> StepKind {
        let name = match name_at(&self.names, v) {
            Some(name) => name,
            None => Name { maker: c, count: 0 },
        };
        match self.draw(2) {
            0 => StepKind::Publish {
                entry: Entry::Create {
                    caller: c,
                    name,
                    refs: [None; 4],
                    numbers: [0; 10],
                },
            },
            _ => StepKind::LinkStore {
                v: Version(u),
                entry: Entry::Store {
                    caller: c,
                    name,
                    field: Field::Number { i: 0, value: 1 },
                },
            },
        }
    }

    // A meeting with a note, and rarely with another caller.
    fn wild_meeting(&mut self) -> StepKind {
        let other = match self.draw(60) {
            0 => Other::Caller(self.draw(4)),
            _ => Other::Note(u64::from(self.draw(6))),
        };
        StepKind::Meet { other }
    }

    // An exchange of the stage that may be none of the cycle's.
    fn wild_stage(&mut self) -> StepKind {
        let more = 4294967296u64.wrapping_mul(u64::from(self.draw(2)));
        let low = u64::from(self.draw(8));
        to(
            (self.stage() / 4)
                .wrapping_mul(4)
                .wrapping_add(more)
                .wrapping_add(low),
        )
    }
}

// The words of a version whose numbers are all this, and whose references are none.
fn all_words(number: u64) -> [u64; 16] {
    let mut words = [number; 16];
    for i in [0usize, 2, 3, 4, 5] {
        words[i] = 0;
    }
    words
}

//! What the tests of the cycle share: fresh machines, kinds of step by the words that they store, and lists of steps
//! with what each answers.
use hm_core::{Machine, Step, StepKind, StepRefused};
use hm_model::{Contents, Entry, Field, Name, Start};
use hm_shape::{ReplyKind, Roles, Shape, Stage, Version};
use std::alloc::Global;
use std::process::Abort;
use std::test::Fail;

// Words of the stage, by the numbers of stages: no cycle is done yet.
pub(crate) const JOIN_1: u64 = 4294967297;

pub(crate) const FIRST_2: u64 = 8589934594;

pub(crate) const SECOND_3: u64 = 12884901891;

pub(crate) const JOIN_3: u64 = 12884901889;

pub(crate) const FIRST_4: u64 = 17179869186;

pub(crate) const SECOND_5: u64 = 21474836483;

// And with one cycle done.
pub(crate) const IDLE_4: u64 = 17179869188;

pub(crate) const IDLE_6: u64 = 25769803780;

pub(crate) const JOIN_7: u64 = 30064771077;

// Words of replies to stages 1 to 5.
pub(crate) const JOINED_1: u64 = 5;

pub(crate) const CLEAN_2: u64 = 10;

pub(crate) const JOINED_3: u64 = 13;

pub(crate) const CLEAN_3: u64 = 14;

pub(crate) const DIRTY_3: u64 = 15;

pub(crate) const CLEAN_4: u64 = 18;

pub(crate) const CLEAN_5: u64 = 22;

// A step that lets nothing go, by its caller and kind, and what it answers.
pub(crate) type Line = (u32, StepKind, Result<u64, StepRefused>);

// A step that lets nothing go.
pub(crate) fn step(caller: u32, kind: StepKind) -> Step {
    Step {
        caller,
        kind,
        let_go: None,
    }
}

// A fresh machine with so many versions a region, whose common object holds zeros.
pub(crate) fn fresh(alloc: Global, callers: u32, versions: u32) -> Result<Machine, Fail> {
    let shape = Shape::new(callers, 4, versions).ok().ok_or("shape")?;
    let start = Start {
        numbers: [0; 10],
        sides: [None; 4],
    };
    Ok(Machine::new(alloc, shape, start).ok().ok_or("memory")?)
}

// The step answers what it is to.
fn answers(rt: &impl Abort, machine: &mut Machine, step: &Step, want: Result<u64, StepRefused>) {
    let answer = machine.apply(step);
    assert_eq!(rt; answer, want, "{step:?}");
}

// The steps answer what they are to.
pub(crate) fn play(rt: &impl Abort, machine: &mut Machine, lines: &[Line]) {
    for (caller, kind, want) in lines {
        answers(rt, machine, &step(*caller, *kind), *want);
    }
}

// The step that lets a version go besides answers what it is to.
pub(crate) fn letting(rt: &impl Abort, machine: &mut Machine, v: u32, line: Line) {
    let (caller, kind, want) = line;
    let step = Step {
        caller,
        kind,
        let_go: Some(Version(v)),
    };
    answers(rt, machine, &step, want);
}

// A step answers this word.
pub(crate) fn take(rt: &impl Abort, machine: &mut Machine, caller: u32, kind: StepKind, word: u64) {
    answers(rt, machine, &step(caller, kind), Ok(word));
}

// A step is refused for this.
pub(crate) fn refuse(
    rt: &impl Abort,
    machine: &mut Machine,
    caller: u32,
    kind: StepKind,
    refused: StepRefused,
) {
    answers(rt, machine, &step(caller, kind), Err(refused));
}

// The Table has these words at these places.
pub(crate) fn has(rt: &impl Abort, machine: &Machine, words: &[(u64, u64)]) {
    for (i, word) in words {
        assert_eq!(rt; machine.word(*i), Some(*word), "word {i} of the Table");
    }
}

// The store has so many objects, and this is in the common one.
pub(crate) fn stores(rt: &impl Abort, machine: &Machine, count: usize, contents: Contents) {
    let store = machine.store();
    assert_eq!(rt; store.len(), count);
    assert_eq!(rt; store.first().copied(), Some((common(), contents)));
}

// The caller's next version is written so.
pub(crate) fn write(rt: &impl Abort, machine: &mut Machine, caller: u32, words: [u64; 16]) {
    for i in 0..16u32 {
        let word = words[i as usize];
        take(rt, machine, caller, StepKind::StoreOwn { i, word }, 0);
    }
}

// A caller makes its next object after so many, of zeros but for its first number.
pub(crate) fn make(rt: &impl Abort, machine: &mut Machine, caller: u32, count: u64, number: u64) {
    write(rt, machine, caller, plain_words(0, number));
    let numbers = plain_contents(0, number).numbers;
    take(rt, machine, caller, create(caller, count, numbers), 0);
}

// A caller makes objects of zeros: the first behind so many, up to so many.
pub(crate) fn make_all(rt: &impl Abort, machine: &mut Machine, caller: u32, counts: (u64, u64)) {
    for count in counts.0..counts.1 {
        make(rt, machine, caller, count, 0);
    }
}

// A scan loads link and references of a version, and finds these words.
pub(crate) fn scan(rt: &impl Abort, machine: &mut Machine, caller: u32, v: u32, words: [u64; 5]) {
    take(rt, machine, caller, look(v, true), words[0]);
    for i in 2..6u32 {
        let word = words[i as usize - 1];
        take(rt, machine, caller, field(v, i, true), word);
    }
}

// An exchange of the stage to that of a word.
pub(crate) fn to(word: u64) -> StepKind {
    match Stage::unpack(word) {
        Some(to) => StepKind::MoveStage { to },
        None => StepKind::LoadStage,
    }
}

// A store of the roles of a word.
pub(crate) fn roles(word: u64) -> StepKind {
    match Roles::unpack(word) {
        Some(roles) => StepKind::StoreRoles { roles },
        None => StepKind::LoadStage,
    }
}

// A store of a reply.
pub(crate) fn reply(kind: ReplyKind) -> StepKind {
    StepKind::StoreReply { kind }
}

// A load of a caller's reply.
pub(crate) fn reply_of(p: u32) -> StepKind {
    StepKind::LoadReply { p }
}

// A load of a caller's roles.
pub(crate) fn roles_of(p: u32) -> StepKind {
    StepKind::LoadRoles { p }
}

// A load of a link.
pub(crate) fn look(v: u32, scan: bool) -> StepKind {
    StepKind::LoadLink {
        v: Version(v),
        entry: None,
        scan,
    }
}

// A load of another word.
pub(crate) fn field(v: u32, i: u32, scan: bool) -> StepKind {
    StepKind::LoadField {
        v: Version(v),
        i,
        scan,
    }
}

// An exchange that makes a copy.
pub(crate) fn copy(v: u32) -> StepKind {
    StepKind::LinkCopy { v: Version(v) }
}

// A store of a later name in an own word.
pub(crate) fn shorten(v: u32, i: u32, u: u32) -> StepKind {
    StepKind::Shorten {
        v: Version(v),
        i,
        u: Version(u),
    }
}

// A Create of an object of zeros, the caller's next after so many, but for these numbers.
pub(crate) fn create(caller: u32, count: u64, numbers: [u64; 10]) -> StepKind {
    StepKind::Publish {
        entry: Entry::Create {
            caller,
            name: Name {
                maker: caller,
                count,
            },
            refs: [None; 4],
            numbers,
        },
    }
}

// The name of the common object.
pub(crate) fn common() -> Name {
    Name { maker: 0, count: 0 }
}

// A caller's Store into the common object, hung on this version of it.
pub(crate) fn store(caller: u32, v: u32, field: Field) -> StepKind {
    StepKind::LinkStore {
        v: Version(v),
        entry: Entry::Store {
            caller,
            name: common(),
            field,
        },
    }
}

// So for its first number.
pub(crate) fn store_number(caller: u32, v: u32, value: u64) -> StepKind {
    store(caller, v, Field::Number { i: 0, value })
}

// The words of a version with this stamp and first number, and else zeros.
pub(crate) fn plain_words(stamp: u64, number: u64) -> [u64; 16] {
    [0, stamp, 0, 0, 0, 0, number, 0, 0, 0, 0, 0, 0, 0, 0, 0]
}

// What an object holds with this stamp and first number, and else zeros.
pub(crate) fn plain_contents(stamp: u64, number: u64) -> Contents {
    Contents {
        stamp,
        refs: [None; 4],
        numbers: [number, 0, 0, 0, 0, 0, 0, 0, 0, 0],
    }
}

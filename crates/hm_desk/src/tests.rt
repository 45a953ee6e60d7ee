//! Callers of plain heaps at their desks.
ghost use Rattle.std.specs.Prelude.{◌≡◌, ◌≤◌, [], IfOk};
ghost use Rattle.hm_plain.specs.Stocks.{most_versions};
ghost use Rattle.hm_desk.specs.Desk.{AreOwn, KeepsBook};
ghost use Rattle.hm_desk.specs.Progress.{HasCome};

use crate::{Admission, Desk, Gate, NoGate, Progress, Worked};
use hm_book::Limits;
use hm_cellbook::{BookUsage, Lengths};
use hm_model::{Caller, Root, Start};
use hm_orders::{Fate, Fill, Order, read_orders};
use hm_plain::{PlainCaller, PlainHeap};
use std::alloc::Global;
use std::cell::Cell;
use std::process::Abort;
use std::test::Fail;

/// A caller of a plain heap, and the orders of its file.
#[derive(Drop)]
struct Seat {
    caller: PlainCaller<BookUsage>,
    orders: Vec<Order>,
}

/// The caller of a fresh heap with so many versions, two of which are taken, with the orders of a text.
fn sit(alloc: Global, limits: Limits, room: u64, text: &[u8]) -> Result<Seat, Fail>
    requires some { 2 ≤ room }
    requires most { room ≤ most_versions }
    ensures keeps { IfOk result (λ s. KeepsBook limits s.caller) }
    ensures own { IfOk result (λ s. AreOwn s.caller s.orders.items) }
    ensures come { IfOk result (λ s. HasCome s.caller s.orders.items
        record { next = 0; told = 0; done = []; resting = 0 }) }
{
    let orders = read_orders(alloc, 1, text)?;
    let usage = BookUsage {
        limits,
        lengths: Lengths::new(vec![in alloc; orders.len() as u64]?),
    };
    let start = Start {
        numbers: [0; 10],
        sides: [None, None, None, Some([0; 10])],
    };
    let caller = PlainHeap::make(alloc, usage, start, room)?;
    Ok(Seat { caller, orders })
}

/// Works at a desk under these limits, which the closure tells.
fn works_by<F: Admission, G: Gate>(
    alloc: Global,
    limits: Limits,
    admit: F,
    seat: &mut Seat,
    so_far: &mut Progress,
    gate: &G,
) -> Worked
    requires tells { F.tells limits admit }
    requires keeps { KeepsBook limits seat.old.caller }
    requires own { AreOwn seat.old.caller seat.old.orders.items }
    requires come { HasCome seat.old.caller seat.old.orders.items so_far.old }
    ensures keeps { KeepsBook limits seat.new.caller }
    ensures own { AreOwn seat.new.caller seat.new.orders.items }
    ensures come { HasCome seat.new.caller seat.new.orders.items so_far.new }
{
    let desk = Desk::new(limits, admit);
    desk.work(
        alloc,
        &mut seat.caller,
        seat.orders.as_slice(),
        so_far,
        gate,
    )
}

/// Works at a desk under these limits.
fn works<G: Gate>(
    alloc: Global,
    limits: Limits,
    seat: &mut Seat,
    so_far: &mut Progress,
    gate: &G,
) -> Worked
    requires keeps { KeepsBook limits seat.old.caller }
    requires own { AreOwn seat.old.caller seat.old.orders.items }
    requires come { HasCome seat.old.caller seat.old.orders.items so_far.old }
    ensures keeps { KeepsBook limits seat.new.caller }
    ensures own { AreOwn seat.new.caller seat.new.orders.items }
    ensures come { HasCome seat.new.caller seat.new.orders.items so_far.new }
{
    let admit = |order: &Order| limits.admits(order);
    works_by(alloc, limits, admit, seat, so_far, gate)
}

const TEXT: &[u8] = b"L,1,B,10,5\nL,2,S,9,3\n";

#[test]
fn two_orders_trade_and_only_the_common_object_is_named_then(rt: HostRuntime) -> Result<(), Fail> {
    let alloc = rt.alloc();
    let mut seat = sit(alloc, Limits::NONE, 64, TEXT)?;
    let mut so_far = Progress::new(alloc);
    assert_eq!(rt;
        works(alloc, Limits::NONE, &mut seat, &mut so_far, &NoGate),
        Worked::Finished
    );
    assert_eq!(rt; (so_far.next, so_far.told, so_far.resting), (2, 2, 1));
    let done = so_far.done.items();
    assert_eq!(rt; done.len(), 2);
    assert_eq!(rt;
        (done[0].root, done[0].row, done[0].fate),
        (1, 1, Fate::Rested)
    );
    assert_eq!(rt;
        (done[1].root, done[1].row, done[1].fate),
        (2, 2, Fate::Filled)
    );
    assert!(rt; done[0].fills.items().is_empty());
    let fill = Fill {
        number: 1,
        taker: 2,
        maker: 1,
        price: 10,
        quantity: 3,
    };
    assert_eq!(rt; done[1].fills.items(), [fill].as_slice());
    for k in 0..256 {
        assert_eq!(rt; seat.caller.is_set(Root(k)), k == 0, "at {k}");
    }
    Ok(())
}

/// Counts how often it was passed.
#[derive(Drop)]
struct Counter {
    passed: Cell<u64>,
}

impl Gate for Counter {
    fn pass(&self, _caller: u32, _number: u64) {
        self.passed.set(self.passed.get().wrapping_add(1));
    }
}

#[test]
fn a_gate_is_passed_before_each_order(rt: HostRuntime) -> Result<(), Fail> {
    let alloc = rt.alloc();
    let mut seat = sit(alloc, Limits::NONE, 64, TEXT)?;
    let mut so_far = Progress::new(alloc);
    let gate = Counter {
        passed: Cell::new(0),
    };
    assert_eq!(rt;
        works(alloc, Limits::NONE, &mut seat, &mut so_far, &gate),
        Worked::Finished
    );
    assert_eq!(rt; gate.passed.get(), 2);
    assert_eq!(rt;
        works(alloc, Limits::NONE, &mut seat, &mut so_far, &gate),
        Worked::Finished
    );
    assert_eq!(rt; gate.passed.get(), 2);
    Ok(())
}

/// Has the caller of a heap with so many versions work twice: it stalls when so many orders are applied, and so many
/// of these are told.
fn stalls(rt: &impl Abort, alloc: Global, room: u64, next: u64, told: u64) -> Result<(), Fail>
    requires some { 2 ≤ room }
    requires most { room ≤ most_versions }
{
    let mut seat = sit(alloc, Limits::NONE, room, TEXT)?;
    let mut so_far = Progress::new(alloc);
    let stalled = Worked::Stalled {
        at: next,
        used: room as u32,
        free: 0,
    };
    let first = works(alloc, Limits::NONE, &mut seat, &mut so_far, &NoGate);
    assert_eq!(rt; first, stalled, "at {room}");
    assert_eq!(rt; (so_far.next, so_far.told), (next, told), "at {room}");
    let second = works(alloc, Limits::NONE, &mut seat, &mut so_far, &NoGate);
    assert_eq!(rt; second, stalled, "at {room}");
    assert_eq!(rt; (so_far.next, so_far.told), (next, told), "at {room}");
    assert_eq!(rt; so_far.done.items().len() as u64, next, "at {room}");
    Ok(())
}

#[test]
fn a_caller_without_room_stalls_and_stalls_again(rt: HostRuntime) -> Result<(), Fail> {
    stalls(&rt, rt.alloc(), 2, 0, 0)?;
    stalls(&rt, rt.alloc(), 4, 0, 0)?;
    stalls(&rt, rt.alloc(), 5, 1, 0)?;
    stalls(&rt, rt.alloc(), 6, 1, 1)?;
    stalls(&rt, rt.alloc(), 7, 1, 1)
}

/// A buy and a sell within limits, what passes each of them, and every other kind.
const LIMITED: &[u8] =
    b"L,1,B,10,5\nL,2,B,9,101\nI,3,S,9,8\nM,4,B,,2\nL,5,S,21,1\nL,6,S,12,4\nC,6,,,\n";

#[test]
fn orders_past_the_limits_are_denied_and_trade_nothing(rt: HostRuntime) -> Result<(), Fail> {
    let alloc = rt.alloc();
    let limits = Limits {
        max_quantity: 100,
        low: 5,
        high: 20,
    };
    let mut seat = sit(alloc, limits, 256, LIMITED)?;
    let mut so_far = Progress::new(alloc);
    assert_eq!(rt;
        works(alloc, limits, &mut seat, &mut so_far, &NoGate),
        Worked::Finished
    );
    assert_eq!(rt; (so_far.next, so_far.told, so_far.resting), (7, 7, 0));
    let fates = [
        Fate::Rested,
        Fate::Denied,
        Fate::Dropped,
        Fate::Dropped,
        Fate::Denied,
        Fate::Rested,
        Fate::Cancelled,
    ];
    let fill = Fill {
        number: 1,
        taker: 3,
        maker: 1,
        price: 10,
        quantity: 5,
    };
    assert_eq!(rt; so_far.done.items().len(), fates.len());
    for (done, fate) in so_far.done.items().iter().zip(fates.iter()) {
        assert_eq!(rt; done.fate, *fate, "at {}", done.root);
        if done.root == 3 {
            assert_eq!(rt; done.fills.items(), [fill].as_slice());
        } else {
            assert!(rt; done.fills.items().is_empty(), "at {}", done.root);
        }
    }
    Ok(())
}

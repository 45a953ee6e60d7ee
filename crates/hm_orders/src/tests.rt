//! What no clause says: rows, refusals and a report as a user meets them, and that calls succeed where memory is ample.
use crate::merging::merge;
use crate::order::{Kind, Order, Side};
use crate::read::{Part, ReadRefused, TextRefused, read_orders};
use crate::report::{Board, Done, DoneList, Fate, Fill, Fills, Report};
use crate::write::{WriteRefused, write_report, write_summary};
use hm_edge::{Sink, SinkFailed};
use std::alloc::{AllocError, Global};
use std::test::Fail;

#[test]
fn the_first_refused_part_of_the_first_refused_row_is_named(rt: HostRuntime) {
    for (text, row, part) in [
        ("L,1,B,10", 1, Part::Fields),
        ("L,1,B,10,5,", 1, Part::Fields),
        ("X,1,B,10,5", 1, Part::Kind),
        ("L,,B,10,5", 1, Part::Id),
        ("L,00000000001,B,10,5", 1, Part::Id),
        ("L, 1,B,10,5", 1, Part::Id),
        ("L,1,b,10,5", 1, Part::Side),
        ("L,1,,10,5", 1, Part::Side),
        ("C,1,B,,", 1, Part::Side),
        ("L,1,B,+5,1", 1, Part::Price),
        ("L,1,B,0,1", 1, Part::Price),
        ("L,1,B,4294967296,1", 1, Part::Price),
        ("I,1,S,,1", 1, Part::Price),
        ("M,1,B,10,5", 1, Part::Price),
        ("C,1,,5,", 1, Part::Price),
        ("M,1,S,,", 1, Part::Quantity),
        ("C,1,,,5", 1, Part::Quantity),
        ("M,x,b,10,0", 1, Part::Id),
        ("\n\r\nC,1,,,\n\nL,2,B,0,0\nL\n", 2, Part::Price),
        // A quoted end of line belongs to its field, and the row that it stands in is one row.
        ("C,1,,,\nL,\"2\n\n\",B,10,5\nL\n", 2, Part::Id),
    ] {
        let refused = read_orders(rt.alloc(), 1, text.as_bytes()).err();
        let want = ReadRefused::Text(TextRefused { row, part });
        assert_eq!(rt; refused, Some(want), "{text:?}");
    }
}

#[test]
fn a_row_past_the_millionth_is_refused(rt: HostRuntime) -> Result<(), Fail> {
    let mut text = Vec::new(rt.alloc());
    for _ in 0..1_000_001u64 {
        text.extend_from_slice(b"C,1,,,\n")?;
    }
    let refused = read_orders(rt.alloc(), 1, text.as_slice()).err();
    let want = TextRefused {
        row: 1_000_001,
        part: Part::TooMany,
    };
    assert_eq!(rt; refused, Some(ReadRefused::Text(want)));
    Ok(())
}

fn order(row: u64, kind: Kind, id: u32, side: Side, price: u32, quantity: u32) -> Order {
    Order {
        file: 7,
        row,
        kind,
        id,
        side,
        price,
        quantity,
    }
}

#[test]
fn rows_of_each_kind_are_read_whatever_ends_them(rt: HostRuntime) -> Result<(), Fail> {
    let text = b"\xEF\xBB\xBFL,0000000001,B,4294967295,5\r\n\r\n\
        \"I\",\"0\",\"S\",\"09\",\"3\"\rM,2,B,,7\n\nC,4294967295,,,";
    let orders = read_orders(rt.alloc(), 7, text)?;
    let want = [
        order(1, Kind::Limit, 1, Side::Buy, 4294967295, 5),
        order(2, Kind::Immediate, 0, Side::Sell, 9, 3),
        order(3, Kind::Market, 2, Side::Buy, 0, 7),
        order(4, Kind::Cancel, 4294967295, Side::Neither, 0, 0),
    ];
    assert_eq!(rt; orders.as_slice(), want.as_slice());
    Ok(())
}

/// A sink in memory that counts its puts, and takes nothing at one of them.
#[derive(Drop)]
struct Lines {
    bytes: Vec<u8>,
    puts: u64,
    fails_at: u64,
    faults: u64,
}

impl Sink for Lines {
    ghost use Rattle.std.specs.Prelude.{Some};

    ghost faults = { λ lines. lines.faults };

    ghost puts = { λ lines. lines.puts };

    ghost written = { λ lines. Some lines.bytes.items };

    fn put(&mut self, piece: &[u8]) -> Result<(), SinkFailed> {
        self.puts = self.puts.saturating_add(1);
        if self.puts != self.fails_at && self.bytes.extend_from_slice(piece).is_ok() {
            return Ok(());
        }
        self.faults = self.faults.saturating_add(1);
        Err(SinkFailed { wrote: 0 })
    }
}

fn done(alloc: Global, root: u64, fate: Fate, fills: &[Fill]) -> Result<Done, AllocError> {
    Ok(Done {
        root,
        file: 1,
        row: root,
        fate,
        fills: Fills::new(Vec::from_slice(alloc, fills)?),
    })
}

fn report(alloc: Global) -> Result<Report, AllocError> {
    let fills = [
        Fill {
            number: 1,
            taker: 3,
            maker: 1,
            price: 10,
            quantity: 4,
        },
        Fill {
            number: 2,
            taker: 3,
            maker: 2,
            price: 10,
            quantity: 6,
        },
    ];
    let mut dones = Vec::new(alloc);
    dones.push(done(alloc, 1, Fate::Rested, &[])?)?;
    dones.push(done(alloc, 2, Fate::Rested, &[])?)?;
    dones.push(done(alloc, 3, Fate::Filled, &fills)?)?;
    Ok(Report {
        done: DoneList::new(dones),
        board: Board::new(Vec::from_slice(alloc, &[3])?),
        resting: 0,
    })
}

#[test]
fn a_report_is_put_line_by_line(rt: HostRuntime) -> Result<(), Fail> {
    let report = report(rt.alloc())?;
    for (fails_at, wrote, puts, text) in [
        (
            0,
            Ok(()),
            7,
            "order 1 1 1 rested\norder 2 1 2 rested\norder 3 1 3 filled\n\
             fill 1 3 1 10 4\nfill 2 3 2 10 6\nboard 3\nend 3 2 0\n",
        ),
        (2, Err(WriteRefused::Failed), 2, "order 1 1 1 rested\n"),
    ] {
        let mut out = Lines {
            bytes: Vec::new(rt.alloc()),
            puts: 0,
            fails_at,
            faults: 0,
        };
        assert_eq!(rt; write_report(rt.alloc(), &report, &mut out), wrote);
        assert_eq!(rt; out.bytes.as_slice(), text.as_bytes());
        assert_eq!(rt; out.puts, puts);
    }
    Ok(())
}

#[test]
fn a_summary_has_the_end_of_a_report(rt: HostRuntime) -> Result<(), Fail> {
    let report = report(rt.alloc())?;
    let mut out = Lines {
        bytes: Vec::new(rt.alloc()),
        puts: 0,
        fails_at: 0,
        faults: 0,
    };
    assert_eq!(rt; write_summary(rt.alloc(), 7, 3, &report, &mut out), Ok(()));
    assert_eq!(rt;
        out.bytes.as_slice(),
        b"generated 7 3\nboard 3\nend 3 2 0\n".as_slice()
    );
    assert_eq!(rt; out.puts, 3);
    Ok(())
}

#[test]
fn the_orders_of_two_files_are_merged_by_root_numbers(rt: HostRuntime) -> Result<(), Fail> {
    let mut parts = Vec::new(rt.alloc());
    for roots in [[1, 4, 5], [2, 3, 6]] {
        let mut dones = Vec::new(rt.alloc());
        for root in roots {
            dones.push(done(rt.alloc(), root, Fate::Rested, &[])?)?;
        }
        parts.push(DoneList::new(dones))?;
    }
    let all = merge(rt.alloc(), parts)?;
    let roots: Vec<u64> = all
        .items()
        .iter()
        .map(|done| done.root)
        .collect(rt.alloc())?;
    assert_eq!(rt; roots.as_slice(), [1, 2, 3, 4, 5, 6].as_slice());
    Ok(())
}

//! The words of the format, and the limits of a shape.
use crate::{Phase, Reply, ReplyKind, Role, Roles, Shape, ShapeRefused, Stage, Version};
use Role::{Free, From, Old, To};

#[test]
fn a_stage_has_its_word(rt: HostRuntime) {
    for (word, number, done, phase) in [
        (0, 0, 0, Phase::Idle),
        (17179869186, 4, 0, Phase::First),
        (17179869188, 4, 1, Phase::Idle),
        (25769803780, 6, 1, Phase::Idle),
        (u64::MAX, u32::MAX, 1073741823, Phase::Second),
    ] {
        let stage = Stage::unpack(word).unwrap();
        assert_eq!(rt;
            (stage.number, stage.done),
            (number, done),
            "the word {word}"
        );
        assert_eq!(rt; stage.phase, phase, "the word {word}");
        assert_eq!(rt; stage.pack(), word);
    }
}

fn reply(number: u32, kind: ReplyKind) -> Option<Reply> {
    Some(Reply { number, kind })
}

#[test]
fn a_reply_has_its_word_and_other_words_are_none(rt: HostRuntime) {
    for (word, want) in [
        (0, None),
        (1, reply(0, ReplyKind::Joined)),
        (2, reply(0, ReplyKind::Clean)),
        (3, reply(0, ReplyKind::Dirty)),
        (4, None),
        (5, reply(1, ReplyKind::Joined)),
        (17179869180, None),
        (17179869183, reply(u32::MAX, ReplyKind::Dirty)),
        (17179869185, None),
        (u64::MAX, None),
    ] {
        let unpacked = Reply::unpack(word);
        assert_eq!(rt; unpacked, want, "the word {word}");
        if let Some(reply) = unpacked {
            assert_eq!(rt; reply.pack(), word);
        }
    }
}

#[test]
fn roles_have_their_word_and_other_words_are_none(rt: HostRuntime) {
    for (word, want) in [
        (0, Some([Free; 8])),
        (1, Some([To, Free, Free, Free, Free, Free, Free, Free])),
        (228, Some([Free, To, Old, From, Free, Free, Free, Free])),
        (32768, Some([Free, Free, Free, Free, Free, Free, Free, Old])),
        (65535, Some([From; 8])),
        (65536, None),
        (u64::MAX, None),
    ] {
        let unpacked = Roles::unpack(word);
        assert_eq!(rt; unpacked, want.map(Roles), "the word {word}");
        if let Some(roles) = unpacked {
            assert_eq!(rt; roles.pack(), word);
        }
    }
}

#[test]
fn a_shape_out_of_its_limits_is_refused(rt: HostRuntime) {
    for (callers, regions, versions, want) in [
        (0, 3, 3, Some(ShapeRefused::Callers)),
        (9, 4, 4, Some(ShapeRefused::Callers)),
        (1, 3, 3, Some(ShapeRefused::Regions)),
        (8, 5, 4, Some(ShapeRefused::Regions)),
        (1, 4, 3, Some(ShapeRefused::Versions)),
        (8, 4, 65537, Some(ShapeRefused::Versions)),
        (1, 4, 4, None),
        (8, 4, 65536, None),
    ] {
        let refused = Shape::new(callers, regions, versions).err();
        assert_eq!(rt;
            refused,
            want,
            "{callers} callers, {regions} regions, {versions} versions"
        );
    }
}

#[test]
fn the_largest_heap_has_33554449_words(rt: HostRuntime) {
    let shape = Shape {
        callers: 8,
        regions: 4,
        versions: 65536,
    };
    let last = Version(2097151);
    assert_eq!(rt; Version::at(shape, 7, 3, 65535), last);
    assert_eq!(rt;
        (last.owner(shape), last.region(shape), last.place(shape)),
        (7, 3, 65535)
    );
    assert_eq!(rt; last.word_of(shape, 15), 33554448);
    assert_eq!(rt;
        (shape.version_count(), shape.word_count()),
        (2097152, 33554449)
    );
    assert_eq!(rt;
        (shape.reply_at(7), shape.roles_at(0), shape.roles_at(7)),
        (8, 9, 16)
    );
    assert_eq!(rt; Version(0).word_of(shape, 0), 17);
}

#[test]
fn a_name_is_one_more_than_the_number(rt: HostRuntime) {
    assert_eq!(rt; Version(7).name(), 8);
    assert_eq!(rt; Version::named(8), Some(Version(7)));
    assert_eq!(rt; Version::named(4294967296), Some(Version(u32::MAX)));
    assert_eq!(rt; Version::named(0), None);
    assert_eq!(rt; Version::named(4294967297), None);
}

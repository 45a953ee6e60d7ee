//! The words of a small fresh Table.
use crate::first_words;
use hm_model::Start;
use hm_shape::Shape;

#[test]
fn a_fresh_table_has_its_head_its_versions_and_else_words_of_0(rt: HostRuntime) {
    let shape = Shape::new(2, 4, 4).unwrap();
    let start = Start {
        numbers: [1, 2, 3, 4, 5, 6, 7, 8, 9, 10],
        sides: [Some([70; 10]), None, Some([90; 10]), None],
    };
    let words = first_words(rt.alloc(), shape, start).expect(&rt, "there is memory");
    let versions = [
        [0, 0, 0, 0, 0, 0, 70, 70, 70, 70, 70, 70, 70, 70, 70, 70],
        [0, 0, 0, 0, 0, 0, 90, 90, 90, 90, 90, 90, 90, 90, 90, 90],
        [0, 0, 1, 0, 2, 0, 1, 2, 3, 4, 5, 6, 7, 8, 9, 10],
    ];
    assert_eq!(rt; words.len(), 517);
    for (i, word) in words.iter().enumerate() {
        let want = match i {
            3 | 4 => 1,
            5..53 => versions[(i - 5) / 16][(i - 5) % 16],
            _ => 0,
        };
        assert_eq!(rt; *word, want, "the word {i}");
    }
}

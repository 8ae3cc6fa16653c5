// The answer table's rows, one answer written everywhere, labels in bytes, and keys of the wrong length.

use aes::AesHash;
use chacha::ChaChaHash;
use label::{Answer, AnswerTable, ControlPair, Hash, Row, label_at, to_bytes};
use refusal::Refusal;
use slices::overwrite;

const fn answer(word: u64, low: bool, high: bool) -> Answer {
    Answer {
        word,
        pair: ControlPair { low, high },
    }
}

#[test]
fn answer_table(rt: HostRuntime) {
    let rows = [
        Row {
            zero: answer(10, true, false),
            one: answer(11, false, true),
        },
        Row {
            zero: answer(20, true, true),
            one: answer(21, false, false),
        },
    ];
    let mut table = AnswerTable { rows: &rows };
    assert_eq!(rt; table.query((4, 9), 0).word, 10);
    assert_eq!(rt; table.query((5, 8), 0).word, 11);
    assert_eq!(rt; table.query((5, 8), 1).word, 21);
    assert_eq!(rt;
        table.query((4, 8), 1).pair,
        ControlPair {
            low: true,
            high: true,
        }
    );
    assert_eq!(rt; table.query((5, 8), 2).word, 0);
    assert_eq!(rt;
        table.query((5, 8), 0xffffffff).pair,
        ControlPair {
            low: false,
            high: false,
        }
    );
}

#[test]
fn labels_in_bytes(rt: HostRuntime) {
    let bytes = to_bytes((0x0807060504030201, 0x100f0e0d0c0b0a09));
    assert_eq!(rt;
        bytes,
        [1, 2, 3, 4, 5, 6, 7, 8, 9, 10, 11, 12, 13, 14, 15, 16]
    );
    assert_eq!(rt;
        label_at(&bytes, 0),
        (0x0807060504030201, 0x100f0e0d0c0b0a09)
    );
    assert_eq!(rt; label_at(&bytes, 8), (0x100f0e0d0c0b0a09, 0));
}

// Number and place of a refusal; 0, 0 where the call is done: a pair, as the tests state their values, and in each crate of
// tests, for these share no code and no other caller wants a pair.
fn told<T: Drop>(answer: Result<T, Refusal>) -> (u8, u32) {
    answer
        .err()
        .map_or((0, 0), |refusal| (refusal.number(), refusal.place()))
}

#[test]
fn key_lengths(rt: HostRuntime) {
    assert_eq!(rt; told(AesHash::new(&[0; 31])), (10, 6));
    assert_eq!(rt; told(AesHash::new(&[0; 33])), (10, 6));
    assert_eq!(rt; told(AesHash::new(&[0; 32])), (0, 0));
    assert_eq!(rt; told(ChaChaHash::new(&[0; 27])), (10, 6));
    assert_eq!(rt; told(ChaChaHash::new(&[])), (10, 6));
    assert_eq!(rt; told(ChaChaHash::new(&[0; 28])), (0, 0));
}

#[test]
fn one_answer_everywhere(rt: HostRuntime) {
    let kept = answer(1, false, true);
    let written = answer(9, true, true);
    let mut answers = [kept, answer(2, true, false), answer(3, false, false)];
    overwrite(&mut answers[1..], written);
    assert_eq!(rt; answers, [kept, written, written]);
    overwrite(&mut answers[..0], kept);
    assert_eq!(rt; answers, [kept, written, written]);
}

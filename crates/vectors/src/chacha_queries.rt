// Queries of the hash built on ChaCha20, with answers computed by another implementation of ChaCha20.

use crate::report::Query;
use label::{Answer, ControlPair};

// A query under a key material.
pub(crate) struct Keyed {
    pub name: &'static str,
    pub key: &'static [u8; 28],
    pub query: Query,
}

pub(crate) static QUERIES: [Keyed; 7] = [
    Keyed {
        name: "zero",
        key: b"\x00\x00\x00\x00\x00\x00\x00\x00\x00\x00\x00\x00\x00\x00\x00\x00\
            \x00\x00\x00\x00\x00\x00\x00\x00\x00\x00\x00\x00",
        query: Query {
            label: (0x0000000000000000, 0x0000000000000000),
            tweak: 0x0,
            expected: Answer {
                word: 0x903df1a0ade0b876,
                pair: ControlPair {
                    low: false,
                    high: false,
                },
            },
        },
    },
    Keyed {
        name: "counting",
        key: b"\x00\x01\x02\x03\x04\x05\x06\x07\x08\x09\x0a\x0b\x0c\x0d\x0e\x0f\
            \x10\x11\x12\x13\x14\x15\x16\x17\x18\x19\x1a\x1b",
        query: Query {
            label: (0x0123456789abcdef, 0xfedcba9876543210),
            tweak: 0x1,
            expected: Answer {
                word: 0xd6a1408a5bb5a07e,
                pair: ControlPair {
                    low: false,
                    high: true,
                },
            },
        },
    },
    Keyed {
        name: "halves exchanged",
        key: b"\x00\x01\x02\x03\x04\x05\x06\x07\x08\x09\x0a\x0b\x0c\x0d\x0e\x0f\
            \x10\x11\x12\x13\x14\x15\x16\x17\x18\x19\x1a\x1b",
        query: Query {
            label: (0xfedcba9876543210, 0x0123456789abcdef),
            tweak: 0x1,
            expected: Answer {
                word: 0xa48341d8126cfdfc,
                pair: ControlPair {
                    low: true,
                    high: true,
                },
            },
        },
    },
    Keyed {
        name: "another tweak",
        key: b"\x00\x01\x02\x03\x04\x05\x06\x07\x08\x09\x0a\x0b\x0c\x0d\x0e\x0f\
            \x10\x11\x12\x13\x14\x15\x16\x17\x18\x19\x1a\x1b",
        query: Query {
            label: (0x0123456789abcdef, 0xfedcba9876543210),
            tweak: 0x2,
            expected: Answer {
                word: 0x60e72c6ec5e275a7,
                pair: ControlPair {
                    low: false,
                    high: true,
                },
            },
        },
    },
    Keyed {
        name: "largest",
        key: b"\xff\xfe\xfd\xfc\xfb\xfa\xf9\xf8\xf7\xf6\xf5\xf4\xf3\xf2\xf1\xf0\
            \xef\xee\xed\xec\xeb\xea\xe9\xe8\xe7\xe6\xe5\xe4",
        query: Query {
            label: (0xffffffffffffffff, 0xffffffffffffffff),
            tweak: 0xffffffff,
            expected: Answer {
                word: 0x59cb1397d638471d,
                pair: ControlPair {
                    low: true,
                    high: true,
                },
            },
        },
    },
    Keyed {
        name: "low halves",
        key: b"\xff\xfe\xfd\xfc\xfb\xfa\xf9\xf8\xf7\xf6\xf5\xf4\xf3\xf2\xf1\xf0\
            \xef\xee\xed\xec\xeb\xea\xe9\xe8\xe7\xe6\xe5\xe4",
        query: Query {
            label: (0x00000000ffffffff, 0x0000000080000000),
            tweak: 0x80000000,
            expected: Answer {
                word: 0xd992b94f4c0bfe66,
                pair: ControlPair {
                    low: true,
                    high: false,
                },
            },
        },
    },
    Keyed {
        name: "high halves",
        key: b"\xff\xfe\xfd\xfc\xfb\xfa\xf9\xf8\xf7\xf6\xf5\xf4\xf3\xf2\xf1\xf0\
            \xef\xee\xed\xec\xeb\xea\xe9\xe8\xe7\xe6\xe5\xe4",
        query: Query {
            label: (0xffffffff00000000, 0x8000000000000000),
            tweak: 0x7,
            expected: Answer {
                word: 0xddaed17c916ebbd0,
                pair: ControlPair {
                    low: false,
                    high: true,
                },
            },
        },
    },
];

// Queries of the hash built on AES, under the key material of appendix B.

use crate::report::Query;
use label::{Answer, ControlPair};

pub(crate) static QUERIES: [Query; 8] = [
    Query {
        label: (0x0000000000000000, 0x0000000000000000),
        tweak: 0x00000000,
        expected: Answer {
            word: 0xb399b81a0c6bf77d,
            pair: ControlPair {
                low: false,
                high: true,
            },
        },
    },
    Query {
        label: (0x0000000000000000, 0x0000000000000000),
        tweak: 0x00000001,
        expected: Answer {
            word: 0x5f918b71943a6f17,
            pair: ControlPair {
                low: true,
                high: false,
            },
        },
    },
    Query {
        label: (0x0123456789abcdef, 0xfedcba9876543210),
        tweak: 0x00000002,
        expected: Answer {
            word: 0x33a2408a4155752a,
            pair: ControlPair {
                low: false,
                high: false,
            },
        },
    },
    Query {
        label: (0x0123456789abcdef, 0xfedcba9876543210),
        tweak: 0x80000000,
        expected: Answer {
            word: 0xed6611d9e7eccb84,
            pair: ControlPair {
                low: false,
                high: false,
            },
        },
    },
    Query {
        label: (0xffffffffffffffff, 0xffffffffffffffff),
        tweak: 0xffffffff,
        expected: Answer {
            word: 0x02272ff01bb3d825,
            pair: ControlPair {
                low: false,
                high: true,
            },
        },
    },
    Query {
        label: (0x8000000000000000, 0x8000000000000001),
        tweak: 0x00010203,
        expected: Answer {
            word: 0x8cc7882a52b0124f,
            pair: ControlPair {
                low: false,
                high: true,
            },
        },
    },
    Query {
        label: (0x243f6a8885a308d3, 0x13198a2e03707344),
        tweak: 0xdeadbeef,
        expected: Answer {
            word: 0x6ddc7ff04bc4c6a7,
            pair: ControlPair {
                low: false,
                high: true,
            },
        },
    },
    Query {
        label: (0x0000000000000001, 0x4000000000000000),
        tweak: 0x7fffffff,
        expected: Answer {
            word: 0xf0af6698b5340735,
            pair: ControlPair {
                low: true,
                high: true,
            },
        },
    },
];

//! Bytes that nobody would write, and their faults.

use kc_script_lines::{Limit, Why};

/// Bytes: a front, and behind it some bytes so many times.
pub struct Hostile {
    pub name: &'static str,
    pub front: &'static [u8],
    pub more: &'static [u8],
    pub times: usize,
    /// The line of their first fault.
    pub line: u32,
    pub why: Why,
}

pub const HOSTILE: [Hostile; 10] = [
    Hostile {
        name: "a byte that no text has",
        front: b"kcas 1\nloc x 1\n",
        more: b"\xff",
        times: 1,
        line: 3,
        why: Why::UnknownWord,
    },
    Hostile {
        name: "a name that isn't ASCII",
        front: b"kcas 1\nloc \xc3\xa9 1",
        more: b"\n",
        times: 1,
        line: 2,
        why: Why::BadName,
    },
    Hostile {
        name: "a number of eleven digits",
        front: b"kcas 1\nloc x 0000000000",
        more: b"1",
        times: 1,
        line: 2,
        why: Why::BadNumber,
    },
    Hostile {
        name: "a header of three words",
        front: b"kcas 1",
        more: b" 2",
        times: 1,
        line: 1,
        why: Why::Header,
    },
    Hostile {
        name: "three large caches",
        front: b"kcas 1\ncache a 1024 4096\ncache b 1024 4096\n",
        more: b"cache c 1024 4096\n",
        times: 1,
        line: 4,
        why: Why::TooMany(Limit::Locations),
    },
    Hostile {
        name: "17 threads",
        front: b"kcas 1\n",
        more: b"thread\n",
        times: 17,
        line: 18,
        why: Why::TooMany(Limit::Threads),
    },
    Hostile {
        name: "4,097 commands",
        front: b"kcas 1\nloc x 0\nthread\n",
        more: b"get x\n",
        times: 4097,
        line: 4100,
        why: Why::TooMany(Limit::Commands),
    },
    Hostile {
        name: "nine more alternatives",
        front: b"kcas 1\nthread\natomic\n",
        more: b"or\n",
        times: 9,
        line: 12,
        why: Why::TooMany(Limit::Depth),
    },
    Hostile {
        name: "17 commands in a block",
        front: b"kcas 1\nloc x 0\nthread\natomic\n",
        more: b"get x\n",
        times: 17,
        line: 21,
        why: Why::TooMany(Limit::Block),
    },
    Hostile {
        name: "a megabyte of comment",
        front: b"",
        more: b"#",
        times: 1_048_576,
        line: 1,
        why: Why::Header,
    },
];

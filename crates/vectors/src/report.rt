// What is printed of everything that is run: one line, with 'ok' or what differs.

use label::{Answer, Hash, Label};
use std::fmt::{Debug, Display};
use std::io;

// What was run, and 'ok', or what was found in place of what was expected.
pub(crate) fn report<L: Display + Drop, T: PartialEq + Debug + Copy>(
    rt: &HostRuntime,
    line: L,
    found: T,
    expected: T,
) -> io::Result<()> {
    if found == expected {
        println!(rt; "{line} ok")
    } else {
        println!(rt; "{line} {found:?}, expected {expected:?}")
    }
}

// A query of a hash, and its answer as another implementation computed it.
#[derive(Clone, Copy)]
pub(crate) struct Query {
    pub label: Label,
    pub tweak: u32,
    pub expected: Answer,
}

impl Query {
    // The query put to a hash.
    pub(crate) fn run<H: Hash, L: Display + Drop>(
        &self,
        rt: &HostRuntime,
        hash: &mut H,
        line: L,
    ) -> io::Result<()> {
        report(rt, line, hash.query(self.label, self.tweak), self.expected)
    }
}

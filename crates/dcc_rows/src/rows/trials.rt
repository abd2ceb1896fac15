//! What `trial` tells of programs made at random. The lengths of files, the outputs and the ends come from a reference of
//! the generator and of the machine apart from this one.

use dcc_samples::files::{Faults, NO_FAULTS, answered};
use std::test::Fail;

// The words after `trial`, the lines before the length of the text, and the lines after it.
type Row = ([&'static str; 3], &'static str, &'static str);

static ROWS: [Row; 3] = [
    (
        ["0", "1", "0"],
        "file 720\nprocedures 9\ntext ",
        "\nmachine 0 running\nc 0 running\nprefix yes\n",
    ),
    (
        ["0", "1", "100000"],
        "file 720\nprocedures 9\ntext ",
        "\nmachine 9 exit 0\nc 9 exit 0\nprefix yes\n",
    ),
    (
        ["7", "400", "100000"],
        "file 2128\nprocedures 9\ntext ",
        "\nmachine 107 exit 0\nc 107 exit 0\nprefix yes\n",
    ),
];

fn rows() -> &'static [Row] {
    &ROWS
}

#[test]
fn trials_are_those_of_the_reference(rt: HostRuntime) -> Result<(), Fail> {
    for (words, head, tail) in rows() {
        let [seed, size, steps] = *words;
        let given = answered(rt.alloc(), &["trial", seed, size, steps], b"", NO_FAULTS)?;
        assert_eq!(rt; given.err.as_slice(), b"".as_slice(), "{head}");
        assert!(rt; given.out.as_slice().starts_with(head.as_bytes()), "{head}");
        assert!(rt; given.out.as_slice().ends_with(tail.as_bytes()), "{tail}");
        assert_eq!(rt; given.status, 0, "{head}");
    }
    Ok(())
}

#[test]
fn nothing_is_asked_for_and_a_write_may_fail(rt: HostRuntime) -> Result<(), Fail> {
    let faults = Faults {
        fetch: 1,
        read: 1,
        out: 1,
        err: 0,
    };
    let given = answered(rt.alloc(), &["trial", "0", "1", "0"], b"", faults)?;
    assert_eq!(rt; given.status, 6);
    assert!(rt; given.out.is_empty());
    assert!(rt; given.err.is_empty());
    Ok(())
}

//! Scripts that are printed.

use crate::asserts::{equal, holds, holds_at};
use crate::reading::{KINDS, read};
use kc_model::FrailSink;
use kc_script_printing::print;
use std::test::Fail;

// Whether the bundle that a text spells is printed as this.
fn prints(rt: &HostRuntime, text: &str, expected: &str) -> bool {
    let Ok(bundle) = read(rt, text) else {
        return false;
    };
    let Ok(mut sink) = FrailSink::new(rt.alloc(), 4096, Vec::new(rt.alloc())) else {
        return false;
    };
    print(&bundle, &mut sink).is_ok() && sink.bytes() == expected.as_bytes()
}

// Whether lines in a thread, behind declarations of each kind, are printed as they stand.
fn stays(rt: &HostRuntime, lines: &str) -> bool {
    match format!(in rt.alloc(); "{KINDS}{lines}") {
        Ok(text) => prints(rt, &text, &text),
        Err(_) => false,
    }
}

#[test]
fn what_makes_no_difference_is_not_printed(rt: HostRuntime) {
    let text =
        "# demo\r\nkcas\t1\r\n\r\n\tloc x 05\r\n thread\n# more\nget\tx \r\nset x 0000000007\nadd x 1";
    holds(
        &rt,
        prints(
            &rt,
            text,
            "kcas 2\nlimit 64\nloc x 5\nthread\nget x\nset x 7\nadd x 1\n",
        ),
    );
}

#[test]
fn each_command_is_printed(rt: HostRuntime) {
    let rows = [
        "get x\nset x 7\nxchg y 8\nswap x y\ncas x 1 2\nadd x 3\nincr x\ndecr y\n",
        "update x add 1\nupdate y max 9\nmodify x min 0\n",
        "update x and 3\nmodify y or 4\nmodify y xor 4294967295\n",
        "check x eq 1\ncheck x ne 2\ncheck x lt 3\ncheck y le 10\ncheck x gt 0\ncheck x ge 5\n",
        "push s 1\npop s\npopw s\ntop s\nlen s\nenq q 2\ndeq q\ndeqw q\nfront q\nlen q\n",
        "put t 1 2\nfind t 1\ndel t 1\nlen t\nmput m 3\nmtake m\nmpeek m\n",
        "resolve p 4\nawait p\nresolved p\nbump a 5\ntotal a\n",
        "cancel 1\natomic\ncancel 16\nget x\nor\ncancel 2\nend\n",
    ];
    for lines in rows {
        holds_at(&rt, lines, stays(&rt, lines));
    }
}

#[test]
fn a_limit_is_printed_where_it_is_not_the_greatest(rt: HostRuntime) {
    let rows = [
        ("kcas 1\nloc x 5", "kcas 2\nlimit 64\nloc x 5\n"),
        ("kcas 2\nlimit 0064", "kcas 2\nlimit 64\n"),
        ("kcas 2\nlimit 1\nthread", "kcas 2\nlimit 1\nthread\n"),
        ("kcas 2\nlimit 255", "kcas 2\nlimit 255\n"),
        ("kcas 2\nlimit 256", "kcas 2\n"),
    ];
    for (text, printed) in rows {
        holds_at(&rt, text, prints(&rt, text, printed));
        holds_at(&rt, printed, prints(&rt, printed, printed));
    }
}

#[test]
fn commands_on_a_cache_are_printed(rt: HostRuntime) {
    let text =
        "kcas 2\nmvar zz_9\ncache c 2 3\nthread\ncput c 1 2\ncputw c 3 4\ncget c 1\ncdel c 3\nlen c\nmtake zz_9\n";
    holds(&rt, prints(&rt, text, text));
}

#[test]
fn commands_on_a_table_that_grows_are_printed(rt: HostRuntime) {
    let text =
        "kcas 2\nloc x 1\ngrow g 4\nthread\nput g 1 2\natomic\nfind g 1\nend\ndel g 3\nlen g\n";
    holds(&rt, prints(&rt, text, text));
}

#[test]
fn blocks_are_printed_as_they_are_nested(rt: HostRuntime) {
    let text =
        "kcas 2\nloc x 1\nthread\natomic\nend\nthread\nget x\natomic\nget x\natomic\nset x 1\natomic\nend\nor\nend\nor\natomic\nor\nor\nset x 2\nend\nset x 3\nor\nend\nget x\nthread\n";
    holds(&rt, prints(&rt, text, text));
}

#[test]
fn a_bundle_may_be_bare(rt: HostRuntime) {
    holds(&rt, prints(&rt, "kcas 2", "kcas 2\n"));
}

#[test]
fn a_failed_write_is_said(rt: HostRuntime) -> Result<(), Fail> {
    let text = "kcas 2\nloc first 1\nloc second 2\nthread\nswap first second";
    let Ok(bundle) = read(&rt, text) else {
        panic!(rt; "it is spelled");
    };
    let mut failing = Vec::new(rt.alloc());
    failing.push(2)?;
    let mut sink = FrailSink::new(rt.alloc(), 4096, failing)?;
    holds(&rt, print(&bundle, &mut sink).is_err());
    equal(&rt, sink.bytes(), b"kcas 2\nloc first".as_slice());
    Ok(())
}

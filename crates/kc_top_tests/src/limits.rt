//! How many locations a command may touch.

use crate::asserts::{all_give, gives};
use std::test::Fail;

// Eight accumulators have 256 cells. The first block totals them; the second adds to one of them before, and reads a
// location behind.
const EIGHT: &str =
    "acc a 32\nacc b 32\nacc c 32\nacc d 32\nacc e 32\nacc f 32\nacc g 32\nacc h 32\nloc x 1\nthread\natomic\ntotal a\ntotal b\ntotal c\ntotal d\ntotal e\ntotal f\ntotal g\ntotal h\nend\natomic\nbump a 5\ntotal a\ntotal b\ntotal c\ntotal d\ntotal e\ntotal f\ntotal g\ntotal h\nget x\nend\n";

const EIGHT_STAND: &str =
    "order\n1.1\n1.2\n1.end\nstate\na 0\nb 0\nc 0\nd 0\ne 0\nf 0\ng 0\nh 0\nx 1\n";

#[test]
fn a_block_touches_256_locations_where_its_script_allows_them(rt: HostRuntime) -> Result<(), Fail> {
    let all = "1.1 0 0 0 0 0 0 0 0\n1.2 toolarge\n";
    let none = "1.1 toolarge\n1.2 toolarge\n";
    let rows = [
        ("kcas 2\n", all),
        ("kcas 2\nlimit 256\n", all),
        ("kcas 2\nlimit 255\n", none),
        ("kcas 2\nlimit 64\n", none),
        ("kcas 1\n", none),
    ];
    for (front, replies) in rows {
        let script = format!(in rt.alloc(); "{front}{EIGHT}")?;
        let text = format!(in rt.alloc(); "{replies}{EIGHT_STAND}")?;
        gives(&rt, rt.alloc(), &script, &text)?;
    }
    Ok(())
}

// A command that would wait touches location 0 too.
#[test]
fn a_command_that_would_wait_touches_one_location_more(rt: HostRuntime) -> Result<(), Fail> {
    let rows = [
        (
            "kcas 2\nlimit 1\nloc x 1\nloc y 2\nthread\nincr x\nswap x y\nswap x x\ncheck y eq 3\n",
            "1.1 ok\n1.2 toolarge\n1.3 ok\n1.4 toolarge\norder\n1.1\n1.2\n1.3\n1.4\n1.end\nstate\nx 2\ny 2\n",
        ),
        (
            "kcas 2\nlimit 2\nloc x 1\nloc y 2\nthread\nswap x y\ncheck y eq 3\natomic\nget x\ncheck y eq 3\nend\n",
            "1.1 ok\n1.2 stranded\n1.3 toolarge\norder\n1.1\n1.2\n1.3\n1.end\nstate\nx 2\ny 1\n",
        ),
        (
            "kcas 2\nacc a 32\nacc b 32\nacc c 32\nacc d 32\nacc e 32\nacc f 32\nacc g 32\nacc h 30\nloc x 1\nloc y 1\nthread\natomic\ntotal a\ntotal b\ntotal c\ntotal d\ntotal e\ntotal f\ntotal g\ntotal h\ncheck x eq 2\nend\natomic\nget y\ntotal a\ntotal b\ntotal c\ntotal d\ntotal e\ntotal f\ntotal g\ntotal h\ncheck x eq 2\nend\n",
            "1.1 stranded\n1.2 toolarge\norder\n1.1\n1.2\n1.end\nstate\na 0\nb 0\nc 0\nd 0\ne 0\nf 0\ng 0\nh 0\nx 1\ny 1\n",
        ),
    ];
    all_give(&rt, rt.alloc(), &rows)
}

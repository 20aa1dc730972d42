// Why each thing is left, and who went.

use crate::calling::{Case, first_wrong};
use crate::programs::{KEPT, LOOSE, NESTED, PEERS, PINNED, REACHED_TWICE, SEVEN};
use std::test::Fail;

const WHYS: &[Case] = &[
    (
        &["why"],
        PINNED,
        0,
        "--\nend quiet\nactors made 1 left 1\nobjects made 1 left 1\nkept actor 0 level 0 pinned\nkept object 0.0 level 1 by actor 0 field 0\n",
    ),
    (
        &["why"],
        PEERS,
        0,
        "--\nend quiet\nactors made 3 left 1\nobjects made 0 left 0\nreaped token 1\nmember actor 1 count 1 holds 2 1\nmember actor 2 count 1 holds 1 1\nkept actor 0 level 0 pinned\n",
    ),
    (
        &["why"],
        SEVEN,
        0,
        "7\n--\nend quiet\nactors made 1 left 0\nobjects made 0 left 0\ngone actor 0\n",
    ),
    (
        &["why", "--budget", "4"],
        REACHED_TWICE,
        5,
        "--\nend budget\nactors made 2 left 2\nobjects made 2 left 2\nkept actor 0 level 0 pinned\nkept object 0.0 level 1 by actor 1 letter 0 argument 0\nkept object 0.1 level 1 by actor 1 letter 0 argument 1\nkept actor 1 level 0 letter\n",
    ),
    (
        &["why", "--budget", "1"],
        SEVEN,
        5,
        "--\nend budget\nactors made 1 left 1\nobjects made 0 left 0\nkept actor 0 level 0 frame\n",
    ),
    (
        &["why", "--budget", "2"],
        LOOSE,
        5,
        "--\nend budget\nactors made 1 left 1\nobjects made 1 left 1\nkept actor 0 level 0 pinned\nloose object 0.0\n",
    ),
    (
        &["why", "--budget", "2", "--weight", "2"],
        NESTED,
        5,
        "1\n--\nend budget\nactors made 1 left 1\nobjects made 2 left 2\nkept actor 0 level 0 frame\nkept object 0.0 level 1 by actor 0 register 1\nkept object 0.1 level 1 by actor 0 register 2\n",
    ),
    (
        &["why"],
        KEPT,
        0,
        "--\nend quiet\nactors made 2 left 2\nobjects made 1 left 1\nkept actor 0 level 0 pinned\nkept actor 1 level 2 by object 1.0 owner\nkept object 1.0 level 1 by actor 0 field 0\n",
    ),
];

#[test]
fn each_thing_has_its_reason(rt: HostRuntime) -> Result<(), Fail> {
    assert_eq!(rt; first_wrong(&rt, WHYS)?, None);
    Ok(())
}

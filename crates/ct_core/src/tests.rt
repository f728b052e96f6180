// Lists of events, and the states that they lead to.
use crate::{CoreFault, Event, State, replay, start};
use std::alloc::Global;

/// The place of the first event that is not legal; there is none for a state, or where memory ran out.
fn illegal_place(answer: &Result<State, CoreFault>) -> Option<u64> {
    match answer {
        Err(CoreFault::Illegal(place)) => Some(*place),
        _ => None,
    }
}

#[test]
fn the_later_index_is_hit_and_the_earlier_one_refused(rt: HostRuntime) {
    let events = [
        Event::Claim(0),
        Event::Claim(1),
        Event::Look(1),
        Event::Hit(1, 1),
        Event::Look(0),
        Event::Refuse(0, 0),
        Event::Claim(0),
        Event::Stop(0),
    ];
    let state = match replay(rt.alloc(), 2, 2, &events) {
        Ok(state) => state,
        Err(fault) => {
            assert!(rt; false, "{fault:?}");
            return;
        }
    };
    assert_eq!(rt; state.least, Some(1));
    assert_eq!(rt; state.next, 3);
    assert_eq!(rt; state.count, 2);
    let first = &state.views[0];
    assert_eq!(rt; first.claims.as_slice(), [0, 2].as_slice());
    assert_eq!(rt; first.refuted.as_slice(), [0].as_slice());
    assert_eq!(rt;
        (
            first.hit,
            first.pending,
            first.looked,
            first.seen,
            first.stopped
        ),
        (None, Some(2), false, Some(1), true)
    );
    let second = &state.views[1];
    assert_eq!(rt;
        (
            second.hit,
            second.pending,
            second.looked,
            second.seen,
            second.stopped
        ),
        (Some(1), Some(1), true, None, true)
    );
}

#[test]
fn refusing_without_a_look_is_not_legal(rt: HostRuntime) {
    let events = [
        Event::Claim(0),
        Event::Claim(1),
        Event::Look(1),
        Event::Hit(1, 1),
        Event::Refuse(0, 0),
        Event::Claim(0),
        Event::Stop(0),
    ];
    assert_eq!(rt; illegal_place(&replay(rt.alloc(), 2, 2, &events)), Some(4));
}

#[test]
fn each_list_breaks_one_row_of_the_table(rt: HostRuntime) {
    let lists: [(&str, u64, &[Event]); 12] = [
        ("no such worker", 0, &[Event::Claim(2)]),
        ("claims twice", 1, &[Event::Claim(0), Event::Claim(0)]),
        (
            "claims after a hit",
            3,
            &[
                Event::Claim(0),
                Event::Look(0),
                Event::Hit(0, 0),
                Event::Claim(0),
            ],
        ),
        ("looks at nothing", 0, &[Event::Look(0)]),
        (
            "looks twice",
            2,
            &[Event::Claim(0), Event::Look(0), Event::Look(0)],
        ),
        (
            "looks past the count",
            7,
            &[
                Event::Claim(0),
                Event::Look(0),
                Event::Refuse(0, 0),
                Event::Claim(0),
                Event::Look(0),
                Event::Refuse(0, 1),
                Event::Claim(0),
                Event::Look(0),
            ],
        ),
        (
            "refuses what it has not",
            2,
            &[Event::Claim(0), Event::Look(0), Event::Refuse(0, 1)],
        ),
        (
            "refuses past a hit that it saw",
            5,
            &[
                Event::Claim(0),
                Event::Claim(1),
                Event::Look(0),
                Event::Hit(0, 0),
                Event::Look(1),
                Event::Refuse(1, 1),
            ],
        ),
        (
            "hits without a look",
            1,
            &[Event::Claim(0), Event::Hit(0, 0)],
        ),
        (
            "hits twice",
            3,
            &[
                Event::Claim(0),
                Event::Look(0),
                Event::Hit(0, 0),
                Event::Hit(0, 0),
            ],
        ),
        ("stops with nothing claimed", 0, &[Event::Stop(0)]),
        (
            "stops at its own index",
            2,
            &[Event::Claim(0), Event::Look(0), Event::Stop(0)],
        ),
    ];
    for (name, place, events) in lists {
        assert_eq!(rt;
            illegal_place(&replay(rt.alloc(), 2, 2, events)),
            Some(place),
            "{name}"
        );
    }
}

#[test]
fn a_step_leaves_the_state_where_it_is_not_legal(rt: HostRuntime) {
    let Ok(mut state) = start(rt.alloc(), 2, 1) else {
        assert!(rt; false, "no memory");
        return;
    };
    assert!(rt; state.step(Event::Claim(0)).is_ok());
    assert!(rt; matches!(state.step(Event::Claim(0)), Err(CoreFault::Illegal(0))));
    assert_eq!(rt;
        (state.next, state.least, state.views[0].pending),
        (1, None, Some(0))
    );
    assert!(rt; state.step(Event::Look(0)).is_ok());
    assert!(rt; state.step(Event::Hit(0, 0)).is_ok());
    assert_eq!(rt; state.least, Some(0));
}

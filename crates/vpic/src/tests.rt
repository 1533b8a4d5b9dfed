//! The controller by calls in a row.

use super::*;
use std::test::*;

/// A call, what it is given and what it answers.
#[derive(Clone, Copy)]
enum Step {
    /// `line` and then `iack`, which answer alike.
    Take(u128, Option<u8>),
    Eoi(u32, bool),
    Config(u32, u32, u32, u32, bool),
    /// `get_config`: the configuration and the priority.
    Configured(u32, Option<(u32, u32)>),
    Mask(u32, u32, bool),
    Masked(u32, Option<bool>),
    Task(u32, bool),
    Ring(u8),
}

use Step::*;

/// Whether a step answers as it says.
fn answers(vpic: &mut Vpic, step: Step) -> bool {
    match step {
        Take(levels, number) => vpic.line(levels) == number && vpic.iack(levels) == number,
        Eoi(n, done) => vpic.eoi(n) == done,
        Config(n, config, priority, dest, done) => vpic.set_config(n, config, priority, dest)
            == done,
        Configured(n, told) => {
            let expected = told.map(|(config, priority)| Source {
                config,
                priority,
                dest: 0,
            });
            vpic.get_config(n) == expected
        }
        Mask(n, mask, done) => vpic.set_mask(n, mask) == done,
        Masked(n, masked) => vpic.get_mask(n) == masked,
        Task(p, done) => vpic.set_task(p) == done && (!done || vpic.task() == p),
        Ring(n) => {
            let known = vpic.get_mask(n as u32).is_some();
            if known {
                vpic.ring(n);
            }
            known
        }
    }
}

/// How many interrupts there are, and the calls in their order.
struct Case {
    count: u8,
    steps: &'static [Step],
}

const CASES: [Case; 9] = [
    // what a controller begins with; nothing of it is chosen
    Case {
        count: 2,
        steps: &[
            Configured(0, Some((0, 8))),
            Configured(1, Some((0, 8))),
            Configured(2, None),
            Masked(1, Some(true)),
            Masked(2, None),
            Take(3, None),
            Eoi(0, false),
        ],
    },
    // a level and a latch of unlike priority: the higher first, and the other when it has ended
    Case {
        count: 3,
        steps: &[
            Config(0, 0, 5, 0, true),
            Config(2, 0, 9, 0, true),
            Mask(0, 0, true),
            Mask(2, 0, true),
            Ring(2),
            Take(1, Some(2)),
            Take(1, None),
            Eoi(2, true),
            Take(1, Some(0)),
            Eoi(0, true),
            Take(0, None),
        ],
    },
    // the same with equal priorities: the lower number first, and the latch stays
    Case {
        count: 3,
        steps: &[
            Mask(0, 0, true),
            Mask(2, 0, true),
            Ring(2),
            Take(1, Some(0)),
            Take(1, None),
            Eoi(0, true),
            Take(0, Some(2)),
        ],
    },
    // nesting, with services that end in order and out of order
    Case {
        count: 3,
        steps: &[
            Config(0, 1, 3, 0, true),
            Config(1, 1, 7, 0, true),
            Config(2, 1, 15, 0, true),
            Mask(0, 0, true),
            Mask(1, 0, true),
            Mask(2, 0, true),
            Take(1, Some(0)),
            Take(3, Some(1)),
            Take(7, Some(2)),
            Take(7, None),
            Eoi(1, true),
            Take(7, None),
            Eoi(1, false),
            Eoi(2, true),
            Take(2, Some(1)),
            Eoi(0, true),
            Eoi(1, true),
            Take(0, None),
        ],
    },
    // a latch that is rung while its interrupt is in service
    Case {
        count: 1,
        steps: &[
            Mask(0, 0, true),
            Ring(0),
            Take(0, Some(0)),
            Ring(0),
            Take(0, None),
            Eoi(0, true),
            Take(0, Some(0)),
            Eoi(0, true),
            Take(0, None),
        ],
    },
    // a task priority holds back what isn't above it
    Case {
        count: 2,
        steps: &[
            Mask(0, 0, true),
            Mask(1, 0, true),
            Config(1, 0, 15, 0, true),
            Task(15, true),
            Take(3, None),
            Task(16, false),
            Take(3, None),
            Task(8, true),
            Take(1, None),
            Take(2, Some(1)),
            Eoi(1, true),
            Task(7, true),
            Take(1, Some(0)),
        ],
    },
    // masks: any but 0 masks, also one that is in service
    Case {
        count: 2,
        steps: &[
            Mask(1, 0, true),
            Masked(1, Some(false)),
            Masked(0, Some(true)),
            Take(3, Some(1)),
            Mask(1, 0x8000_0000, true),
            Masked(1, Some(true)),
            Eoi(1, true),
            Take(3, None),
            Mask(2, 0, false),
            Mask(0xFFFF_FFFF, 0, false),
        ],
    },
    // configurations at their edges
    Case {
        count: 2,
        steps: &[
            Config(1, 3, 15, 0, true),
            Configured(1, Some((3, 15))),
            Config(1, 4, 2, 0, false),
            Config(1, 2, 16, 0, false),
            Config(1, 2, 2, 1, false),
            Config(2, 0, 2, 0, false),
            Config(0x0001_0001, 0, 2, 0, false),
            Configured(1, Some((3, 15))),
            Config(0, 0, 0, 0, true),
            Mask(0, 0, true),
            Take(1, None),
        ],
    },
    // as many interrupts as there can be
    Case {
        count: 128,
        steps: &[
            Mask(127, 0, true),
            Mask(128, 0, false),
            Mask(126, 0, true),
            Config(127, 0, 9, 0, true),
            Config(128, 0, 9, 0, false),
            Configured(128, None),
            Masked(128, None),
            Take(u128::MAX, Some(127)),
            Eoi(128, false),
            Eoi(383, false),
            Eoi(126, false),
            Eoi(127, true),
            Ring(126),
            Take(0, Some(126)),
        ],
    },
];

#[test]
fn calls_answer_in_their_order(rt: HostRuntime) {
    for case in CASES.iter() {
        let mut vpic = Vpic::new(case.count.min(128));
        for &step in case.steps {
            assert!(rt; answers(&mut vpic, step));
        }
    }
}

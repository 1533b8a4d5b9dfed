//! Partitions of runs, by themselves.

use crate::images::{ECHO, FILL, HEAR, HELLO, RING, UNBACKED};
use crate::lone::{Handle, Lone};
use crate::manager_images as images;
use machine_desc::Event;

/// A manager starts it at 0, and has its memory loaded anew.
pub const START: Event = Event::Start {
    entry: 0,
    load: true,
};

/// A manager starts it at 0, and has its memory stay.
pub const START_AS_IT_STANDS: Event = Event::Start {
    entry: 0,
    load: false,
};

/// The partition of its handle 2 doesn't run any more.
pub const HALTED: Event = Event::State {
    h: 2,
    running: false,
};

/// The regions of most partitions.
const ONE: &[u32] = &[0x1_0000];

/// A console on handle 1, and a partition to manage, which runs.
const CONSOLE_AND_MANAGED: &[Handle] = &[Handle::Channel, Handle::Manage(false, ONE)];

/// `p` with a console, which sends "Hi" in its step 6.
pub const P: Lone = Lone {
    name: "p",
    regions: ONE,
    handles: &[Handle::Channel],
    image: &HELLO,
    held: false,
    feed: &[],
};

/// `q`, which does the same.
pub const Q: Lone = Lone { name: "q", ..P };

/// `q`, which begins held.
pub const HELD: Lone = Lone { held: true, ..Q };

/// `p` looks for four bytes in its step 6, says again what came, and looks for more seven steps behind that. Where nothing came it
/// looks again in each eighth step.
pub const ECHOER: Lone = Lone { image: &ECHO, ..P };

/// `p` fills its channel, and sends on its console, in its steps 80 and 88, what the last send answers and how many bytes the
/// channel takes, which it asks in step 83.
pub const FILLER: Lone = Lone {
    handles: &[Handle::Channel, Handle::Channel],
    image: &FILL,
    ..P
};

/// `p` rings a doorbell.
pub const RINGER: Lone = Lone {
    handles: &[Handle::Channel, Handle::Send],
    image: &RING,
    ..P
};

/// `q` asks in its step 8 which interrupt is chosen, and sends the answer in step 14.
pub const HEARER: Lone = Lone {
    handles: &[Handle::Channel, Handle::Receive],
    image: &HEAR,
    ..Q
};

/// `p` stops the partition that it manages.
pub const STOPPER: Lone = Lone {
    handles: CONSOLE_AND_MANAGED,
    image: &images::STOP,
    ..P
};

/// `p` restarts it.
pub const RESTARTER: Lone = Lone {
    image: &images::RESTART,
    ..STOPPER
};

/// `p` starts it, which begins held.
pub const STARTER: Lone = Lone {
    handles: &[Handle::Channel, Handle::Manage(true, ONE)],
    image: &images::START,
    ..P
};

/// `p` asks in its steps 4 and 7 whether it runs, and sends both answers in step 13.
pub const ASKER: Lone = Lone {
    image: &images::ASK,
    ..STOPPER
};

/// `p` stops it in its steps 4 and 6, and sends the second status in step 12.
pub const STOPS_TWICE: Lone = Lone {
    image: &images::TWICE,
    ..STOPPER
};

/// `q` stops itself in its step 6.
pub const ENDS: Lone = Lone {
    image: &images::END,
    ..Q
};

/// `q` ends by a machine check in its step 2.
pub const FAULTS: Lone = Lone {
    image: &UNBACKED,
    ..Q
};

/// `q` restarts itself in each fourth step.
pub const BEGINS_AGAIN: Lone = Lone {
    image: &images::AGAIN,
    ..Q
};

/// `p` rings a doorbell, and restarts the partition that hears it.
pub const DISTURBER: Lone = Lone {
    handles: &[Handle::Channel, Handle::Send, Handle::Manage(false, ONE)],
    image: &images::DISTURB,
    ..P
};

/// `p` sends four bytes to a partition that begins held, polls the channel in its steps 8 and 19, starts the partition between
/// the two, and sends on its console how much room there was.
pub const SENDER: Lone = Lone {
    handles: &[Handle::Channel, Handle::Channel, Handle::Manage(true, ONE)],
    image: &images::ROOM,
    ..P
};

/// `p` manages another manager, and stops it in its step 8.
pub const TOP: Lone = Lone {
    handles: &[Handle::Manage(false, ONE)],
    image: &images::LATE,
    ..P
};

/// `q` is that manager, and stops another in its step 4.
pub const LINK: Lone = Lone {
    name: "q",
    image: &images::FIRST,
    ..TOP
};

/// `r`, which has no handle.
pub const BOTTOM: Lone = Lone {
    name: "r",
    handles: &[],
    ..P
};

/// Unmasks interrupt 2; stores at 0x240 by condition; sends, in its step 23, the chosen interrupt, how many bytes wait, the
/// condition register and how much room there is; reserves 0x240; waits from its step 27 on, and begins again.
const SLEEP: [u32; 28] = [
    0x3D60_0001, // lis r11,1
    0x616B_0006, // ori r11,r11,6
    0x3860_0002, // li r3,2
    0x3880_0000, // li r4,0
    0x4400_0022, // sc 1
    0x3920_0240, // li r9,576
    0x7D40_492D, // stwcx. r10,0,r9
    0x7CE0_0026, // mfcr r7
    0x3D60_0001, // lis r11,1
    0x616B_0003, // ori r11,r11,3
    0x3860_0001, // li r3,1
    0x4400_0022, // sc 1
    0x7C86_2378, // mr r6,r4
    0x7CA8_2B78, // mr r8,r5
    0x3D60_0001, // lis r11,1
    0x616B_0009, // ori r11,r11,9
    0x4400_0022, // sc 1
    0x7C85_2378, // mr r5,r4
    0x3D60_0001, // lis r11,1
    0x616B_0001, // ori r11,r11,1
    0x3860_0001, // li r3,1
    0x3880_0010, // li r4,16
    0x4400_0022, // sc 1
    0x7D40_4828, // lwarx r10,0,r9
    0x3D60_0001, // lis r11,1
    0x616B_0010, // ori r11,r11,16
    0x4400_0022, // sc 1
    0x4BFF_FF94, // b 0
];

/// `q` with that image, a console and a doorbell.
pub const SLEEPER: Lone = Lone {
    image: &SLEEP,
    ..HEARER
};

/// `p` with two regions. So has the partition that it manages, and there the second is small.
pub const COPIER: Lone = Lone {
    regions: &[0x1_0000, 0x1_0000],
    handles: &[Handle::Channel, Handle::Manage(false, &[0x1_0000, 0x1000])],
    ..P
};

/// `q` is that one.
pub const COPIED: Lone = Lone {
    regions: &[0x1_0000, 0x1000],
    ..Q
};

/// `p`, to which eight bytes come out of the managed partition.
pub const FED: Lone = Lone {
    feed: b"ABCDEFGH",
    ..COPIER
};

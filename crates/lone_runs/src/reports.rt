//! What is written of runs that were worked out by hand.

/// Two partitions send "Hi" to a console each, turn by turn.
pub const BOTH_SEND: &str = "p 6 sent 1 4869
q 6 sent 1 4869
end p running 6
end q running 6
console cp 2 0 0
console cq 2 0 0
";

/// The same, where `p` has two turns for each of `q`.
pub const ONE_SENDS: &str = "p 6 sent 1 4869
end p running 8
end q running 4
console cp 2 0 0
console cq 0 0 0
";

/// `p` fills its channel to `q`, which then takes five bytes.
pub const FILLED: &str = "p 11 sent 1 00000000000000000000000000000000
p 15 sent 1 00000000000000000000000000000000
p 19 sent 1 00000000000000000000000000000000
p 23 sent 1 00000000000000000000000000000000
p 27 sent 1 00000000000000000000000000000000
p 31 sent 1 00000000000000000000000000000000
p 35 sent 1 00000000000000000000000000000000
p 39 sent 1 00000000000000000000000000000000
p 43 sent 1 00000000000000000000000000000000
p 47 sent 1 00000000000000000000000000000000
p 51 sent 1 00000000000000000000000000000000
p 55 sent 1 00000000000000000000000000000000
p 59 sent 1 00000000000000000000000000000000
p 63 sent 1 00000000000000000000000000000000
p 67 sent 1 00000000000000000000000000000000
p 71 sent 1 00000000000000000000000000000000
p 80 sent 2 0000000400000000
p 88 sent 2 00000005
end p running 88
end q running 5
console cp 12 0 0
";

/// `p` rings a doorbell, and `q` says which interrupt it has.
pub const HEARD: &str = "p 4 ring 2
q 14 sent 1 00000002
end p running 15
end q running 15
console cp 0 0 0
console cq 4 0 0
";

/// The same, where `p` has no turn.
pub const UNHEARD: &str = "q 14 sent 1 0000ffff
end p running 0
end q running 15
console cp 0 0 0
console cq 4 0 0
";

/// `p` says again what is typed, five bytes in the first turn; its console is behind its lines.
pub const ECHOED: &str =
    "p 12 sent 1 41424344\np 25 sent 1 45\nend p running 100\nconsole cp 5 5 0\n";

/// `p` stops `q`.
pub const STOPPED: &str = "p 4 stop 2
end p running 6
end q stopped 3
console cp 0 0 0
console cq 0 0 0
";

/// `p` restarts `q`, whose count of steps goes on.
pub const RESTARTED: &str = "p 4 restart 2
q 9 sent 1 4869
end p running 9
end q running 9
console cp 0 0 0
console cq 2 0 0
";

/// `p` starts `q`, which is held.
pub const STARTED: &str = "p 6 start 2 00000000 1
q 6 sent 1 4869
end p running 11
end q running 6
console cp 0 0 0
console cq 2 0 0
";

/// `q` stops itself between two questions of `p`, whether it runs.
pub const SEEN_STOPPED: &str = "q 6 stop self
p 13 sent 1 0000000100000000
end p running 13
end q stopped 6
console cp 8 0 0
console cq 0 0 0
";

/// `q` faults before both.
pub const SEEN_FAULTED: &str = "q 2 faulted
p 13 sent 1 0000000000000000
end p running 13
end q faulted 2
console cp 8 0 0
console cq 0 0 0
";

/// `p` stops `q` twice.
pub const STOPPED_TWICE: &str = "p 4 stop 2
p 12 sent 1 0000000b
end p running 12
end q stopped 3
console cp 4 0 0
console cq 0 0 0
";

/// `q` restarts itself again and again.
pub const RESTARTS_ITSELF: &str = "q 4 restart self
q 8 restart self
end p running 0
end q running 9
console cp 0 0 0
console cq 0 0 0
";

/// `p` rings a doorbell that `q` hears, and restarts it.
pub const LATCH_LOST: &str = "p 4 ring 2
p 8 restart 3
q 14 sent 1 0000ffff
end p running 8
end q running 14
console cp 0 0 0
console cq 4 0 0
";

/// `p` starts `q`, to which it has sent four bytes.
pub const ROOM_AGAIN: &str = "p 5 sent 1 00000000
p 15 start 3 00000000 0
p 26 sent 2 000000fc00000100
end p running 26
end q running 0
console cp 8 0 0
";

/// `p` stops `q`, which has stopped `r`.
pub const CHAINED: &str = "q 4 stop 1
p 8 stop 1
end p running 8
end q stopped 7
end r stopped 3
";

/// `p` copies eight bytes into `q`, over the edges of their regions.
pub const COPIED_IN: &str = "p 23 copy to 2 8
p 29 sent 1 00000000
q 9 sent 1 4142434445464748
end p running 29
end q running 9
console cp 4 0 0
console cq 8 0 0
";

/// The same out of `q`.
pub const COPIED_OUT: &str = "p 13 copy from 2 8
p 19 sent 1 00000000
p 28 sent 1 4142434445464748
end p running 28
end q running 10
console cp 12 0 0
console cq 0 0 0
";

/// A copy of three entries into `q`, of which the last one can't be done.
pub const NOT_COPIED: &str = "p 24 sent 1 00000006
q 9 sent 1 0000000000000000
end p running 24
end q running 9
console cp 4 0 0
console cq 8 0 0
";

/// The same without the last one.
pub const COPIED_BEFORE: &str = "p 18 copy to 2 8
p 24 sent 1 00000000
q 9 sent 1 4141414100000000
end p running 24
end q running 9
console cp 4 0 0
console cq 8 0 0
";

/// Twelve copies that are refused by their handles, their count of entries or where their list is, but for the sixth, which has no entry.
pub const LISTS_LOOKED_AT: &str = "p 19 sent 1 00000008
p 38 sent 1 00000008
p 57 sent 1 00000008
p 76 sent 1 00000008
p 95 sent 1 00000008
p 114 sent 1 00000000
p 133 sent 1 00000008
p 152 sent 1 00000008
p 171 sent 1 00000006
p 190 sent 1 00000006
p 209 sent 1 00000006
p 228 sent 1 00000006
end p running 228
end q running 0
console cp 48 0 0
console cq 0 0 0
";

/// `p` copies into the granule that `q` has reserved.
pub const RESERVATION_LOST: &str = "p 13 copy to 2 4
q 10 sent 1 00000000
end p running 13
end q running 10
console cp 0 0 0
console cq 4 0 0
";

/// `p` copies behind it.
pub const RESERVATION_KEPT: &str = "p 13 copy to 2 4
q 10 sent 1 20000000
end p running 13
end q running 10
console cp 0 0 0
console cq 4 0 0
";

/// What `examples/control` writes of 810 turns, one cpu after the other, where `abcd` is typed at the console of `control`.
pub const CONTROL_REPORT: &str = "control 19 sent 1 61
wild 26 sent 1 21212121212121212121212121212121
wild 28 faulted
worker 36 sent 1 41
worker 40 ring 2
control 59 sent 2 41
control 72 sent 1 62
worker 89 sent 1 42
worker 93 ring 2
control 112 sent 2 42
control 125 sent 1 63
control 197 stop 4
control 205 copy from 4 4
control 211 sent 2 63626100
control 217 start 4 00000000 1
control 230 sent 1 64
worker 225 sent 1 44
worker 229 ring 2
control 268 sent 2 44
end control running 270
end worker running 250
end wild faulted 28
console log 7 4 0
console noise 16 0 0
";

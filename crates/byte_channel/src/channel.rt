//! The channel and its calls.

ghost use Rattle.std.specs.Prelude.{◌≡◌, ◌≤◌, ◌+◌, length, take, IfOk};
ghost use Rattle.byte_channel.specs.Waiting.{most_waiting, other_side, waiting_at, empty_channel, room_of, after_send, after_receive, after_clear};

use crate::side::Side;
use circular_buffer::HeapCircularBuffer;
use outside::NoMemory;
use std::alloc::Global;
use std::marker::Model;

/// How many bytes can wait at an end.
const MOST_WAITING: usize = 256;

/// A byte channel (ePAPR 1.1, chapter 7): at each end wait the bytes that the other end sent and that it has not yet received, at
/// most 256. What is sent waits at once.
#[derive(Drop)]
pub struct Channel {
    at_a: HeapCircularBuffer<u8>,
    at_b: HeapCircularBuffer<u8>,
}

impl Model for Channel {
    ghost use Rattle.std.specs.Prelude.{◌≡◌, ◌≤◌, length};
    ghost use Rattle.byte_channel.specs.Waiting.{Waiting, most_waiting};

    ghost Value = { Waiting };

    ghost view = { λ c. record { at_a = c.at_a.items; at_b = c.at_b.items } };

    ghost invariant = { λ c. (c.at_a.capacity ≡ most_waiting) × (c.at_b.capacity ≡ most_waiting) };
}

impl Channel {
    /// A channel in which nothing waits. This is the only call that takes memory.
    pub fn new(alloc: Global) -> Result<Channel, NoMemory>
        ensures { IfOk result (λ channel. channel ≡ empty_channel) }
    {
        let at_a = HeapCircularBuffer::with_capacity(alloc, MOST_WAITING)?;
        let at_b = HeapCircularBuffer::with_capacity(alloc, MOST_WAITING)?;
        Ok(Channel { at_a, at_b })
    }

    /// How many bytes the end can send now: what byte-channel-poll tells of its transmit buffer (ePAPR 1.1, chapter 7).
    pub fn room(&self, s: Side) -> u16
        ensures value { result ≡ room_of s self.now }
        ensures whole { result + length (waiting_at (other_side s) self.now) ≡ most_waiting }
    {
        let there = match s {
            Side::A => self.at_b.len(),
            Side::B => self.at_a.len(),
        };
        (MOST_WAITING - there) as u16
    }

    /// How many bytes the end can receive now: what byte-channel-poll tells of its receive buffer (ePAPR 1.1, chapter 7).
    pub fn waiting(&self, s: Side) -> u16
        ensures value { result ≡ length (waiting_at s self.now) }
        ensures within { result ≤ most_waiting }
    {
        match s {
            Side::A => self.at_a.len() as u16,
            Side::B => self.at_b.len() as u16,
        }
    }

    /// The end sends the piece, in order (byte-channel-send; ePAPR 1.1, chapter 7).
    pub fn send(&mut self, s: Side, piece: &[u8])
        requires { length piece.now ≤ room_of s self.old }
        ensures { self.new ≡ after_send s piece.now self.old }
    {
        match s {
            Side::A => self.at_b.fill_from_slice(piece),
            Side::B => self.at_a.fill_from_slice(piece),
        };
    }

    /// The end receives the oldest bytes that wait there, as many as the slice holds (byte-channel-receive; ePAPR 1.1, chapter 7).
    pub fn receive(&mut self, s: Side, into: &mut [u8])
        requires { length into.old ≤ length (waiting_at s self.old) }
        ensures taken { into.new ≡ take (length into.old) (waiting_at s self.old) }
        ensures left { self.new ≡ after_receive s (length into.old) self.old }
    {
        match s {
            Side::A => self.at_a.read_into(into),
            Side::B => self.at_b.read_into(into),
        };
    }

    /// Drops what waits at the end, and tells how many bytes that was.
    pub fn clear_side(&mut self, s: Side) -> u16
        ensures dropped { result ≡ length (waiting_at s self.old) }
        ensures emptied { self.new ≡ after_clear s self.old }
    {
        let count = self.waiting(s);
        match s {
            Side::A => self.at_a.clear(),
            Side::B => self.at_b.clear(),
        }
        count
    }
}

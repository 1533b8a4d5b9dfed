//! What a partition is lent for a step: its ends of what its handles name.

ghost use Rattle.std.specs.Prelude.{◌≡◌, ℕ, ◌+◌, ◌≤◌, true, false, List, Option, Some, length, take};
ghost use Rattle.machine_desc.specs.declared.desc.Region.{Region};
ghost use Rattle.machine_desc.specs.declared.desc.Span.{Span};
ghost use Rattle.partition.specs.declared.kind.Kind.{Kind};
ghost use Rattle.partition.specs.Port.{End, kind_at, end_at, sent_on, taken_on};
ghost use Rattle.copy_lists.specs.Pieces.{sources_of, pieces_in, all_put};
ghost use Rattle.partition.specs.Copying.{Copy};
ghost use Rattle.partition.specs.Lending.{CopyFits, written_into};

use copy_lists::SgList;
use ground::Ground;
use memory_areas::AreaMap;

/// The ends of what a partition's handles name, lent to it by whoever joins the partitions. Each `h` is a handle, from 1.
/// Contracts see the kind of each handle and what the machine has of it. No call takes memory.
pub trait Ports {
    /// Of which kind each handle is.
    ghost kinds: { Self → List Kind };

    /// What the partition's machine has of each handle.
    ghost seen: { Self → List End };

    /// What sending these bytes on a handle does to the lender's own things.
    ghost sends: { Self → ℕ → List ℕ → Self → Type 0 };

    /// What taking so many bytes from a handle does to them.
    ghost takes: { Self → ℕ → ℕ → Self → Type 0 };

    /// What a copy does to them, by the memory before it.
    ghost copies: { Self → List (List ℕ) → Copy → Self → Type 0 };

    /// The private regions in real memory of the partition that a handle manages, where the lender tells them.
    ghost told: { Self → ℕ → Option (List Region) };

    /// What the partition that a handle manages has at some ranges of its logical addresses, by the memory.
    ghost feed: { Self → List (List ℕ) → ℕ → List Span → List ℕ };

    /// The last copy.
    ghost last: { Self → Copy };

    /// How many received bytes wait on a channel.
    fn waiting(&self, h: u32) -> u16
        requires { kind_at (kinds self.now) h ≡ Some Kind.Channel }
        ensures { result ≡ length (end_at (seen self.now) h).received };

    /// How many more bytes a channel takes: 256 less those that are outstanding.
    fn room(&self, h: u32) -> u16
        requires { kind_at (kinds self.now) h ≡ Some Kind.Channel }
        ensures { result + (end_at (seen self.now) h).outstanding ≡ 256 };

    /// Whether the partition runs that the handle manages.
    fn running(&self, h: u32) -> bool
        requires { kind_at (kinds self.now) h ≡ Some Kind.Manage }
        ensures { result ≡ (end_at (seen self.now) h).runs };

    /// Sends bytes, which fit the room.
    fn send(&mut self, h: u32, piece: &[u8])
        requires channel { kind_at (kinds self.old) h ≡ Some Kind.Channel }
        requires room { (end_at (seen self.old) h).outstanding + length piece.now ≤ 256 }
        ensures seen { seen self.new ≡ sent_on (seen self.old) h (length piece.now) }
        ensures kinds { kinds self.new ≡ kinds self.old }
        ensures told { told self.new ≡ told self.old }
        ensures last { last self.new ≡ last self.old }
        ensures sent { sends self.old h piece.now self.new };

    /// Takes the first received bytes, as many as fit into the slice, which so many wait for.
    fn receive(&mut self, h: u32, into: &mut [u8])
        requires channel { kind_at (kinds self.old) h ≡ Some Kind.Channel }
        requires waiting { length into.old ≤ length (end_at (seen self.old) h).received }
        ensures bytes { into.new ≡ take (length into.old) (end_at (seen self.old) h).received }
        ensures seen { seen self.new ≡ taken_on (seen self.old) h (length into.old) }
        ensures kinds { kinds self.new ≡ kinds self.old }
        ensures told { told self.new ≡ told self.old }
        ensures last { last self.new ≡ last self.old }
        ensures taken { takes self.old h (length into.old) self.new };

    /// Copies by a list between the caller's private memory, which its map has, and that of the partition that a handle
    /// manages. Where the lender doesn't tell that partition's memory, nothing is copied into it.
    fn copy(&mut self, ground: &mut Ground, own: &AreaMap, h: u32, to_managed: bool, list: &SgList)
        requires manage { kind_at (kinds self.old) h ≡ Some Kind.Manage }
        requires fits { CopyFits (told self.old h) own.now ground.old to_managed list.now }
        ensures into { to_managed ≡ true → ground.new ≡ written_into (told self.old h) own.now list.now ground.old }
        ensures from { to_managed ≡ false → ground.new ≡ all_put own.now (pieces_in list.now (feed self.old ground.old h (sources_of list.now))) ground.old }
        ensures seen { seen self.new ≡ seen self.old }
        ensures kinds { kinds self.new ≡ kinds self.old }
        ensures told { told self.new ≡ told self.old }
        ensures last { last self.new ≡ record { handle = h; to_managed = to_managed; entries = list.now } }
        ensures copied { copies self.old ground.old (last self.new) self.new };
}

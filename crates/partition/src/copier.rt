//! Copying between a partition and one that it manages.

ghost use Rattle.std.specs.Prelude.{◌≡◌, ◌≤◌, ℕ, List, [], Some, IfOk, IsTrue, length, if◌then◌else◌};
ghost use Rattle.ground.specs.Own.{own_of};
ghost use Rattle.core_step.specs.Access.{SameSizes};
ghost use Rattle.machine_desc.specs.Private.{is_private_range};
ghost use Rattle.machine_desc.specs.Sound.{IsSound, are_regions_sound};
ghost use Rattle.fresh_load.specs.Placed.{ArePlaced, extents_of};
ghost use Rattle.hcall_abi.specs.Reply.{reply_of};
ghost use Rattle.copy_lists.specs.Lists.{most_bytes, total};
ghost use Rattle.copy_lists.specs.Moving.{put};
ghost use Rattle.copy_lists.specs.Pieces.{sources_of, all_put};
ghost use Rattle.partition.specs.Regions.{areas_of};
ghost use Rattle.partition.specs.declared.kind.Kind.{Kind};
ghost use Rattle.partition.specs.Port.{kind_at, kinds_of};
ghost use Rattle.partition.specs.Interrupts.{granted};
ghost use Rattle.partition.specs.Act.{HasTotal, act_of};
ghost use Rattle.partition.specs.Machine.{shape_of};
ghost use Rattle.partition.specs.Asking.{with_total};
ghost use Rattle.partition.specs.Copying as spec;
ghost use Rattle.partition.specs.Lending.{AreTold, CopyFits, IsCopied, IsLent, KeepsOthers, pieces_of};

use crate::managing::{commanding, refusing};
use crate::ports::Ports;
use crate::served::Served;
use copy_lists::{SgEntry, SgList, is_to_managed, managed_handle, put_bytes, sg_check};
use ground::Ground;
use guest_regs::Regs;
use machine_desc::{Act, Desc};
use memory_areas::AreaMap;
use outside::NoMemory;
use partition_manager::Decision;
use std::alloc::Global;
use std::marker::Model;

/// What a partition needs to copy: the map of its regions, and room for a list. Contracts see the regions and the entries.
#[derive(Drop)]
pub struct Copier {
    map: AreaMap,
    list: SgList,
}

impl Model for Copier {
    ghost use Rattle.partition.specs.Lending.{Kit};

    ghost Value = { Kit };

    ghost view = { λ copier. record { map = copier.map; list = copier.list } };
}

impl Copier {
    /// That of a described partition. Fails only where memory runs out.
    pub fn new(alloc: Global, desc: &Desc) -> Result<Copier, NoMemory>
        requires { IsSound desc.now }
        ensures { IfOk result (λ copier. copier ≡ record { map = desc.now.regions; list = [] }) }
    {
        Ok(Copier {
            map: AreaMap::new(alloc, desc)?,
            list: SgList::new(alloc)?,
        })
    }

    /// Does the copy that the caller's registers ask for, unless it is refused.
    pub fn copy<P: Ports>(
        &mut self,
        desc: &Desc,
        regs: &Regs,
        ground: &mut Ground,
        ports: &mut P,
    ) -> Served
        requires sound { IsSound desc.now }
        requires map { self.old.map ≡ desc.now.regions }
        requires placed { ArePlaced ground.old desc.now.regions }
        requires kinds { P.kinds ports.old ≡ kinds_of desc.now.ports }
        requires told { AreTold (P.told ports.old) desc.now ground.old }
        ensures map { self.new.map ≡ self.old.map }
        ensures list { self.new.list ≡ (spec.asked_copy (shape_of desc.now) regs.now (own_of (extents_of desc.now.regions) ground.old)).entries }
        ensures served { spec.copy (shape_of desc.now) regs.now (own_of (extents_of desc.now.regions) ground.old)
            ≡ record { reply = reply_of result.reply; act = act_of (pieces_of desc.now.regions ground.new (P.last ports.new)) result.act } }
        ensures total { HasTotal (pieces_of desc.now.regions ground.new (P.last ports.new)) result.act }
        ensures memory { let it = spec.asked_copy (shape_of desc.now) regs.now (own_of (extents_of desc.now.regions) ground.old) in
            own_of (extents_of desc.now.regions) ground.new
            ≡ all_put (spec.own_regions (areas_of desc.now.regions)) (spec.copied_in it (P.feed ports.old ground.old it.handle (sources_of it.entries)))
            (own_of (extents_of desc.now.regions) ground.old) }
        ensures others { KeepsOthers (P.told ports.old) desc.now.regions (P.last ports.new) result.act ground.old ground.new }
        ensures sizes { SameSizes ground.old ground.new }
        ensures lent { let it = spec.asked_copy (shape_of desc.now) regs.now (own_of (extents_of desc.now.regions) ground.old) in
            IsLent P.kinds P.seen P.sends P.takes P.copies P.told P.last (with_total it) ground.old result.act ports.old ports.new }
    {
        match sg_check(&mut self.list, desc, &self.map, ground, regs) {
            Decision::Go => self.carry_out(
                managed_handle(regs),
                is_to_managed(regs),
                ground,
                ports,
            ),
            Decision::Refuse(status) => refusing(status),
        }
    }

    /// Does a copy by the list, which is allowed.
    fn carry_out<P: Ports>(
        &mut self,
        h: u32,
        to_managed: bool,
        ground: &mut Ground,
        ports: &mut P,
    ) -> Served
        requires few { total self.old.list ≤ most_bytes }
        requires manage { kind_at (P.kinds ports.old) h ≡ Some Kind.Manage }
        requires fits { CopyFits (P.told ports.old h) self.old.map ground.old to_managed self.old.list }
        ensures kept { self.new ≡ self.old }
        ensures reply { reply_of result.reply ≡ (granted).reply }
        ensures done { let it : spec.Copy = record { handle = h; to_managed = to_managed; entries = self.old.list } in
            IsCopied P.kinds P.seen P.sends P.takes P.copies P.told P.last it self.old.map (P.feed ports.old ground.old h (sources_of self.old.list)) ground.old ground.new result.act ports.old ports.new }
    {
        let total = self.list.total() as u32;
        if total == 0 {
            return commanding(Act::None);
        }
        ports.copy(ground, &self.map, h, to_managed, &self.list);
        commanding(copy_act(h, to_managed, total))
    }

    /// Writes bytes into the partition's private memory, from a logical address on.
    pub fn write(&self, ground: &mut Ground, at: u64, bytes: &[u8])
        requires sound { IsTrue (are_regions_sound self.now.map) }
        requires placed { ArePlaced ground.old self.now.map }
        requires private { IsTrue (is_private_range self.now.map at (length bytes.now)) }
        ensures { ground.new ≡ put self.now.map ground.old at bytes.now }
    {
        put_bytes(ground, &self.map, at, bytes);
    }

    /// The entries of the last copy that was asked for.
    pub fn entries(&self) -> &[SgEntry]
        ensures { result.now ≡ self.now.list }
    {
        self.list.as_slice()
    }
}

/// What others see of a copy of so many bytes.
fn copy_act(h: u32, to_managed: bool, total: u32) -> Act
    ensures { result ≡ (if to_managed then Act.CopyTo h total else Act.CopyFrom h total) }
{
    if to_managed {
        Act::CopyTo { h, total }
    } else {
        Act::CopyFrom { h, total }
    }
}

//! What is lent to a thread: a group with its systems, and the values that they write.
use crate::run::Refusal;
use crate::turn::Staged;
use shred_plan::Adding;
use shred_world::{ResourceId, World};
use std::marker::Model;

/// What a crew works on: the systems of a group at their places in it, the values that they write, and how their run ended.
#[derive(Drop)]
pub struct Pack<V, S> {
    pub(crate) group: Vec<Adding<ResourceId>>,
    pub(crate) reads: Vec<ResourceId>,
    pub(crate) writes: Vec<ResourceId>,
    pub(crate) seat: World<V>,
    pub(crate) staged: Vec<Staged<V, S>>,
    pub(crate) outcome: Result<(), Refusal>,
}

impl<V, S> Model for Pack<V, S> {
    ghost use Rattle.std.specs.Prelude.{◌≡◌, map as each};
    ghost use Rattle.std.specs.Coded.{codes, coded_option};
    ghost use Rattle.std.specs.FinMap as map;
    ghost use Rattle.shred_world.specs.ResourceIds.{id_cmp, coded_id};
    ghost use Rattle.shred_stages.specs.Seats.{refusal_of};
    ghost use Rattle.shred_stages.specs.Views.{FitsSeat};
    ghost use Rattle.shred_stages.specs.Apart.{group_reads, group_writes};
    ghost use Rattle.shred_stages.specs.Packs.{Packed, ArePlaced};

    ghost Value = { Packed V S };

    ghost coded = { Prim.hlevel (codes, map.code {R = id_cmp} coded_id (coded_option V.code)) };

    ghost view = { λ pack. record {
      group = pack.group.items;
      reads = pack.reads.items;
      writes = pack.writes.items;
      seat = pack.seat;
      systems = each (λ one. one.system) pack.staged.items;
      refused = refusal_of pack.outcome;
    } };

    ghost invariant = { λ pack. (pack.reads.items ≡ group_reads pack.group.items)
        × (pack.writes.items ≡ group_writes pack.group.items) × FitsSeat pack.writes.items pack.seat
        × ArePlaced pack.group.items pack.staged.items };
}

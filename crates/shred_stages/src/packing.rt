//! Groups that are lent their systems and the values that they write, and give them back.
ghost use Rattle.std.specs.Prelude.{◌≡◌, ◌≤◌, [], length, map, vec_capacity};
ghost use Rattle.shred_world.specs.Bundles.{holding_of};
ghost use Rattle.shred_stages.specs.Moves.{HasSlots};
ghost use Rattle.shred_stages.specs.Seats.{StageIsSeated, refusal_of};
ghost use Rattle.shred_stages.specs.Packs.{ArePlaced};
ghost use Rattle.shred_stages.specs.Lending.{first_told};
ghost use Rattle.shred_stages.specs.Away.{standing, systems_in, AreIn, IsLoaded, IsHome, AreHome, ComeHome};
ghost use Rattle.shred_stages.specs.Away.{IsPutBack, ArePutBack};
ghost use Rattle.shred_stages.specs.Free.{AreFree};
ghost use Rattle.shred_stages.specs.Loading.{AreLoaded};

use crate::System;
use crate::kit::Kit;
use crate::moves::move_values;
use crate::pack::Pack;
use crate::run::{Refusal, first_of};
use crate::slots::{put_group, take_group};
use crate::turn::Staged;
use shred_world::World;

/// Lends a group its systems, and the values that they write.
fn lend<V: Drop, S: System<V> + Drop>(
    world: &mut World<V>,
    slots: &mut Vec<Option<Staged<V, S>>>,
    kit: Kit<V, S>,
) -> Pack<V, S>
    requires placed { ArePlaced kit (standing kit slots.old.items) }
    ensures { IsLoaded kit result slots.old.items slots.new.items (holding_of world.old) (holding_of world.new) }
{
    let Kit {
        group,
        reads,
        writes,
        mut seat,
        mut staged,
    } = kit;
    take_group(slots, &group, &mut staged);
    move_values(world, &mut seat, &writes);
    Pack {
        group,
        reads,
        writes,
        seat,
        staged,
        outcome: Ok(()),
    }
}

/// Lends each group of a stage its systems, and the values that they write, one after the other.
pub(crate) fn lend_all<V: Drop, S: System<V> + Drop>(
    world: &mut World<V>,
    slots: &mut Vec<Option<Staged<V, S>>>,
    kits: &mut Vec<Kit<V, S>>,
    packs: &mut Vec<Pack<V, S>>,
)
    requires none { packs.old.items ≡ [] }
    requires room { length kits.old.items ≤ vec_capacity packs.old }
    requires free { AreFree kits.old.items }
    requires there { AreIn slots.old.items }
    requires seated { StageIsSeated kits.old.items (systems_in slots.old.items) }
    ensures loaded { AreLoaded (systems_in slots.old.items) kits.old.items packs.new.items slots.new.items
        (holding_of world.old) (holding_of world.new) }
    ensures kits { kits.new.items ≡ [] }
    ensures kits_room { vec_capacity kits.new ≡ vec_capacity kits.old }
    ensures packs_room { vec_capacity packs.new ≡ vec_capacity packs.old }
{
    let mut rest = kits.drain(..);
    while let Some(kit) = rest.next() {
        packs.push_reserved(lend(world, slots, kit));
    }
}

/// Gives the values of a pack back to the world, and its systems to their slots, and tells how its run ended.
fn give_back<V: Drop, S: System<V> + Drop>(
    world: &mut World<V>,
    slots: &mut Vec<Option<Staged<V, S>>>,
    pack: Pack<V, S>,
) -> (Result<(), Refusal>, Kit<V, S>)
    requires home { HasSlots pack.writes (holding_of pack.seat) (holding_of world.old) }
    ensures home { IsHome pack (holding_of world.old) (holding_of world.new) }
    ensures slots { IsPutBack pack slots.old.items slots.new.items }
    ensures told { refusal_of result.0 ≡ pack.refused }
    ensures kit { result.1 ≡ pack.group }
{
    let Pack {
        group,
        reads,
        writes,
        mut seat,
        mut staged,
        outcome,
    } = pack;
    move_values(&mut seat, world, &writes);
    put_group(slots, &group, &mut staged);
    let kit = Kit {
        group,
        reads,
        writes,
        seat,
        staged,
    };
    (outcome, kit)
}

/// Gives back what some packs hold, and tells the first refusal.
pub(crate) fn give_back_all<V: Drop, S: System<V> + Drop>(
    world: &mut World<V>,
    slots: &mut Vec<Option<Staged<V, S>>>,
    packs: &mut Vec<Pack<V, S>>,
    kits: &mut Vec<Kit<V, S>>,
) -> Result<(), Refusal>
    requires home { ComeHome packs.old.items (holding_of world.old) }
    requires none { kits.old.items ≡ [] }
    requires room { length packs.old.items ≤ vec_capacity kits.old }
    ensures home { AreHome packs.old.items (holding_of world.old) (holding_of world.new) }
    ensures slots { ArePutBack packs.old.items slots.old.items slots.new.items }
    ensures told { refusal_of result ≡ first_told packs.old.items }
    ensures kits { kits.new.items ≡ map (λ pack. pack.group) packs.old.items }
    ensures kits_room { vec_capacity kits.new ≡ vec_capacity kits.old }
    ensures packs { packs.new.items ≡ [] }
    ensures packs_room { vec_capacity packs.new ≡ vec_capacity packs.old }
{
    let mut outcome = Ok(());
    let mut rest = packs.drain(..);
    while let Some(pack) = rest.next() {
        let (told, kit) = give_back(world, slots, pack);
        outcome = first_of(outcome, told);
        kits.push_reserved(kit);
    }
    outcome
}

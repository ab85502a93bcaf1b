//! The frames of a scene, one after the other, while workers stand by.
ghost use Rattle.std.specs.Prelude.{◌≡◌};

use crate::frame::Scene;
use scene_dispatch::Works;
use scene_world::Rules;
use shred_crew::{Crew, Shift};
use shred_stages::Pack;
use shred_world::World;
use std::sync::Wait;

impl<R: Rules + Drop> Shift<World<R::Value>, Pack<R::Value, Works<R, R::Value>>> for Scene<R>
where
    R::Value: Drop,
{
    ghost use Rattle.scene.specs.Members.{MayBeginBy, HasRunOutBy};

    ghost may = { MayBeginBy R.Rules R.Value.SceneValue };

    ghost does = { HasRunOutBy R.Rules R.Value.SceneValue };

    fn run<H: AllocGlobal + Wait>(
        &mut self,
        rt: &H,
        crew: &mut Crew<World<R::Value>, Pack<R::Value, Works<R, R::Value>>>,
    ) {
        while self.left() > 0 {
            match self.run_frame_with(rt, crew) {
                Ok(()) => {}
                Err(_) => return,
            }
        }
    }
}

//! Globals that are put into a world as a document says them.
ghost use Rattle.std.specs.Prelude.{◌≡◌, map, OnOk};
ghost use Rattle.scene_model.specs.Declaring.{texts};
ghost use Rattle.scene_document.specs.DraftViews.{named};
ghost use Rattle.scene_commands.specs.Acts.{MayAct};
ghost use Rattle.scene_commands.specs.Becoming.{Becomes};
ghost use Rattle.scene_commands.specs.Entries.{with_value, with_values};
ghost use Rattle.scene_world.specs.Members.{kinds_by};

use scene_world::Rules;
use shred_world::World;
use std::alloc::AllocError;

/// Puts a global in under its name, where that is known, in place of the one that is there.
///
/// Errors: want of memory, and where its place is none of the names.
fn put_global<R: Rules>(
    world: &mut World<R::Value>,
    global: &Option<(usize, R::Global)>,
    names: &[&'static str],
) -> Result<(), AllocError>
where
    R::Value: Drop,
    requires may { MayAct (kinds_by R.Rules R.Value.SceneValue) world.old }
    requires names { texts names.now ≡ R.columns.global_names }
    ensures { OnOk result (Becomes (kinds_by R.Rules R.Value.SceneValue)
        (with_value (named R.global_of (texts names.now) global.now)) world.old world.new) }
{
    let Some((place, value)) = global else {
        return Ok(());
    };
    if *place >= names.len() {
        return Err(AllocError);
    }
    let Some(value) = R::to_value(names[*place], value.clone()?) else {
        return Err(AllocError);
    };
    match world.insert_raw(R::global_id(names[*place]), value) {
        Ok(_) => Ok(()),
        Err(_) => Err(AllocError),
    }
}

/// Puts globals in, each under its name; of two under one name the first stands. Errors: those of each of them.
pub(crate) fn put_globals<R: Rules>(
    world: &mut World<R::Value>,
    globals: &[Option<(usize, R::Global)>],
    names: &[&'static str],
) -> Result<(), AllocError>
where
    R::Value: Drop,
    requires may { MayAct (kinds_by R.Rules R.Value.SceneValue) world.old }
    requires names { texts names.now ≡ R.columns.global_names }
    ensures { OnOk result (Becomes (kinds_by R.Rules R.Value.SceneValue)
        (with_values (map (named R.global_of (texts names.now)) globals.now)) world.old world.new) }
{
    for index in (0..globals.len()).rev() {
        put_global::<R>(world, &globals[index], names)?;
    }
    Ok(())
}

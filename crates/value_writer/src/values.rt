//! The file of the values: the enum, and what ties each kind to it.
ghost use Rattle.std.specs.Prelude.{◌≡◌, ◌++◌, OnOk};
ghost use Rattle.std.specs.List.{flat_map};
ghost use Rattle.value_writer.specs.Variants.{variant_text};

use crate::bytes::put;
use crate::fill::put_type;
use crate::imports::put_imports;
use crate::kind::Kind;
use crate::list::List;
use crate::pieces::{Piece, put_pieces};
use crate::scene::put_scene_front;
use std::alloc::{AllocError, Global};

/// What is named in ghost text.
const GHOST: [Piece; 2] = [
    Piece::Once(
        "==> crates/@crate@/src/@path@.rt
//! What a world holds beside entities and a table of kinds: what @list@.list names, of which tools/values wrote this.
ghost use Rattle.std.specs.Prelude.{◌≡◌, Some, None, refl};
ghost use Rattle.std.proofs.Common.{rules};
ghost use Rattle.@drop lemmas@.{dropped-parts, drops-none, drops-append};
ghost use Rattle.@crate@.specs.@specs@.{value_has_part, value_has_room, value_drops, value-parts, value-none};
ghost use Rattle.@crate@.specs.@specs@.{value-append};
",
    ),
    Piece::All(
        "ghost use Rattle.@crate@.specs.declared.@module@.Value.TheVariants.{@name@Value};\n",
    ),
];

/// Components, and the begin of the enum.
const COMPONENTS: [Piece; 3] = [
    Piece::Components(
        "impl Component for @name@ {
    type Storage = @storage@;
}

",
    ),
    Piece::Saved(
        "impl<M: SavedMarker> ConvertSaveload<M> for @name@ {
    type Data = @saved@;

    ghost use Rattle.std.specs.Prelude.{[]};
    ghost use Rattle.std.specs.Option.{option_map};
    ghost use Rattle.std.proofs.Common.{ap, sym};
    ghost use Rattle.@crate@.specs.declared.@parts@.@name@.{@name@};

    ghost refers_to = { λ _. [] };

    ghost markers_of = { λ _. [] };

    ghost plain = { λ _ part. Some part.0 };

    ghost loaded = { λ _ saved. Some (record { 0 = saved }) };

    fn references(&self, _list: &mut Vec<Entity>) -> Result<(), AllocError> {
        Ok(())
    }

    fn convert_into<N: Names<M>>(&self, _alloc: Global, _names: &N) -> Result<@saved@, Error> {
        plain_into(&self.0)
    }

    fn convert_from<A: MarkerAllocator<M>>(
        saved: @saved@,
        _alloc: Global,
        _entities: &mut EntitiesRes,
        _markers: &mut MaskedStorage<M>,
        _allocator: &mut A,
    ) -> Result<@name@, Error> {
        Ok(@name@(saved))
    }

    ghost named = { λ _ _. (λ _ _ none. absurd none, λ _. refl) };

    ghost stands = { λ _ _ _ _ _ among. absurd among };

    ghost kept = { λ _ _ _ _ _ is. is };

    ghost back = { λ _ _ _ _ _ same. ap (option_map (λ (part : @name@). part.0)) (sym same) };
}

",
    ),
    Piece::Once(
        "/// The values of a world, of one kind each.
#[derive(Drop)]
pub enum Value {
",
    ),
];

/// The end of the enum, and what is behind it.
const IMPLS: [Piece; 6] = [
    Piece::Once(
        "}
",
    ),
    Piece::All(
        "
impl Resource<Value> for @type@ {
    ghost kind_number = { @number@ };

    ghost wrapped = { @name@Value };

    ghost part = { elim [
@cases@    ] };

    ghost seen = { λ _. refl };

    ghost only_wrapped = { Prim.search rules };

    fn kind() -> u32 {
        @number@
    }

    fn wrap(self) -> Value {
        Value::@name@Value(self)
    }

    fn unwrap(value: Value) -> Result<Self, Value> {
        match value {
            Value::@name@Value(resource) => Ok(resource),
            other => Err(other),
        }
    }

    fn view(value: &Value) -> Option<&Self> {
        match value {
            Value::@name@Value(resource) => Some(resource),
            _ => None,
        }
    }

    fn view_mut(value: &mut Value) -> Option<&mut Self> {
        match value {
            Value::@name@Value(resource) => Some(resource),
            _ => None,
        }
    }
}
",
    ),
    Piece::Once(
        "
impl AnyStorage for Value {
    ghost has_part = { value_has_part@members has_part@ };

    ghost has_room = { value_has_room@members has_room@ };

    ghost drops = { value_drops@members drops@ };

    ghost drops_parts = { value-parts@members has_part@@members drops@@law parts@ };

    ghost drops_none = { value-none@members drops@@law none@ };

    ghost drops_append = { value-append@members drops@@law append@ };

    fn drop(&mut self, entities: &[Entity]) -> Result<(), AllocError> {
        match self {
",
    ),
    Piece::Either(
        "            Value::@name@Value(storage) => AnyStorage::drop(storage, entities),\n",
        "            Value::@name@Value(_) => Ok(()),\n",
    ),
    Piece::Once(
        "        }
    }

    fn make_room(&mut self, count: usize) -> Result<(), AllocError> {
        match self {
",
    ),
    Piece::Either(
        "            Value::@name@Value(storage) => AnyStorage::make_room(storage, count),\n",
        "            Value::@name@Value(_) => Ok(()),\n",
    ),
];

/// The end of the file.
const LAWS: [Piece; 2] = [
    Piece::Once(
        "        }
    }
}
",
    ),
    Piece::Storages(
        "
impl Registrable<Value> for @item@ {
    ghost parts_within = { λ _ _. refl };

    ghost drops_within = { λ _ _ _ dropped. dropped };
}
",
    ),
];

/// Puts the variant of a kind.
fn put_variant(out: &mut Vec<u8>, kind: &Kind) -> Result<(), AllocError>
    ensures { OnOk result (out.new.items ≡ out.old.items ++ variant_text kind.now) }
{
    put(out, "    ")?;
    put(out, kind.name)?;
    put(out, "Value(")?;
    put_type(out, kind)?;
    put(out, "),\n")
}

/// Puts a variant for each kind.
///
/// Errors: want of memory, which leaves some of them behind the bytes.
pub(crate) fn put_variants(out: &mut Vec<u8>, kinds: &[Kind]) -> Result<(), AllocError>
    ensures { OnOk result (out.new.items ≡ out.old.items ++ flat_map variant_text kinds.now) }
{
    for kind in kinds {
        put_variant(out, kind)?;
    }
    Ok(())
}

/// Puts what stands in front of the variants.
///
/// Errors: want of memory, which leaves a part of it behind the bytes.
pub(crate) fn put_front(out: &mut Vec<u8>, alloc: Global, list: &List) -> Result<(), AllocError> {
    if list.scene.is_some() {
        return put_scene_front(out, alloc, list);
    }
    put_pieces(out, list, &GHOST)?;
    put(out, "\n")?;
    put_imports(out, alloc, list)?;
    put_pieces(out, list, &COMPONENTS)
}

/// Puts what stands behind the variants.
///
/// Errors: want of memory, which leaves a part of it behind the bytes.
pub(crate) fn put_behind(out: &mut Vec<u8>, list: &List) -> Result<(), AllocError> {
    put_pieces(out, list, &IMPLS)?;
    put_pieces(out, list, &LAWS)
}

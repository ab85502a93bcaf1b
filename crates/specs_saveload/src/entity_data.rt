//! What is saved of an entity.
ghost use Rattle.std.specs.Prelude.{◌≡◌, true, false, option_map, IfOk, OnOk};
ghost use Rattle.serde_json.specs.Data.{array};
ghost use Rattle.serde_json.specs.View.{view, items_of};
ghost use Rattle.specs_saveload.specs.Entities.{are_parts, entity_json, entity_members, parts_place};
ghost use Rattle.specs_saveload.specs.Plain.{is_list};
ghost use Rattle.specs_saveload.specs.Places.{IfShape, at_key};
ghost use Rattle.specs_saveload.specs.declared.form.Key.TheVariants as of_key;

use crate::form::{FormError, JsonForm, Key};
use crate::parts::PartForms;
use serde_json::{Map, Value, put};
use std::alloc::{AllocError, Global};

/// What is saved of an entity: its marker, and its parts, each there or absent.
///
/// The name and the fields are those of `specs`.
#[derive(Drop)]
pub struct EntityData<M, D> {
    /// The marker.
    pub marker: M,
    /// The parts.
    pub components: D,
}

/// The list of an entity's parts.
fn write_parts<D: PartForms>(alloc: Global, parts: &D) -> Result<Value, AllocError>
    ensures value { IfOk result (λ json. view json ≡ array (items_of (D.forms parts.now))) }
    ensures written { OnOk result (are_parts D.rest_of (items_of (D.forms parts.now)) ≡ true) }
    ensures fits { OnOk result (D.is_value parts.now) }
{
    let values = parts.write(alloc, Vec::new(alloc))?;
    Ok(Value::Array(values))
}

/// The parts that a list has, and nothing behind them.
fn read_parts<D: PartForms>(alloc: Global, json: &Value) -> Result<D, FormError>
    ensures ok { IfOk result (λ parts. array (items_of (D.forms parts)) ≡ view json.now) }
    ensures known { OnOk result (is_list (are_parts D.rest_of) (view json.now) ≡ true) }
    ensures fits { IfOk result D.is_value }
    ensures shape { IfShape result (λ _. is_list (are_parts D.rest_of) (view json.now) ≡ false) }
    ensures place { IfShape result (λ place. place ≡ parts_place D.rest_of D.place_in (view json.now)) }
{
    let Some(values) = json.as_array() else {
        return Err(FormError::whole());
    };
    match D::read(alloc, values.as_slice(), values.len()) {
        Ok((parts, rest)) => {
            if rest.is_empty() {
                Ok(parts)
            } else {
                Err(FormError::whole())
            }
        }
        Err(error) => Err(error),
    }
}

/// The parts of an entity.
fn read_components<D: PartForms>(alloc: Global, json: &Value) -> Result<D, FormError>
    ensures ok { IfOk result (λ parts. array (items_of (D.forms parts)) ≡ view json.now) }
    ensures known { OnOk result (is_list (are_parts D.rest_of) (view json.now) ≡ true) }
    ensures fits { IfOk result D.is_value }
    ensures shape { IfShape result (λ _. is_list (are_parts D.rest_of) (view json.now) ≡ false) }
    ensures place { IfShape result (λ place. place
        ≡ at_key of_key.Components (parts_place D.rest_of D.place_in (view json.now))) }
{
    match read_parts(alloc, json) {
        Ok(parts) => Ok(parts),
        Err(error) => Err(error.at_key(Key::Components)),
    }
}

/// The marker of an entity.
fn read_marker<M: JsonForm>(alloc: Global, json: &Value) -> Result<M, FormError>
    ensures ok { IfOk result (λ marker. M.form marker ≡ view json.now) }
    ensures known { OnOk result (M.is_form (view json.now) ≡ true) }
    ensures fits { IfOk result M.is_value }
    ensures shape { IfShape result (λ _. M.is_form (view json.now) ≡ false) }
    ensures place { IfShape result (λ place. place ≡ at_key of_key.Marker (M.place_in (view json.now))) }
{
    match M::from_value(alloc, json) {
        Ok(marker) => Ok(marker),
        Err(error) => Err(error.at_key(Key::Marker)),
    }
}

/// The object of an entity's parts and its marker.
fn join_members(alloc: Global, components: Value, marker: Value) -> Result<Value, AllocError>
    ensures { IfOk result (λ json. view json ≡ entity_json (view components) (view marker)) }
{
    let mut members = Map::new(alloc);
    put(&mut members, alloc, "components", components)?;
    put(&mut members, alloc, "marker", marker)?;
    Ok(Value::Object(members))
}

/// An entity's parts and its marker, of an object that has these two and no other.
fn part_members(json: &Value) -> Option<(&Value, &Value)>
    ensures { option_map (λ both. (view both.0.now, view both.1.now)) result ≡ entity_members (view json.now) }
{
    let mut members = json.as_object()?.iter();
    let (first, components) = members.next()?;
    let (second, marker) = members.next()?;
    if members.next().is_none() && first.as_str() == "components" && second.as_str() == "marker" {
        Some((components, marker))
    } else {
        None
    }
}

/// `{"components":[..],"marker":m}`, with `null` in the list where a part is absent.
impl<M: JsonForm, D: PartForms> JsonForm for EntityData<M, D> {
    ghost use Rattle.serde_json.specs.Data.{array};
    ghost use Rattle.serde_json.specs.View.{items_of};
    ghost use Rattle.specs_saveload.specs.Plain.{is_list};
    ghost use Rattle.specs_saveload.specs.Entities.{are_parts, entity_json, entity_place, is_entity, parts_place};
    ghost use Rattle.specs_saveload.specs.EntityLemmas.{entities-apart, entities-alike, entity-some};

    ghost form = { λ saved. entity_json (array (items_of (D.forms saved.components))) (M.form saved.marker) };

    ghost is_form = { is_entity (is_list (are_parts D.rest_of)) M.is_form };

    ghost place_in = { entity_place (is_list (are_parts D.rest_of)) (parts_place D.rest_of D.place_in) M.place_in };

    ghost is_value = { λ saved. M.is_value saved.marker × D.is_value saved.components };

    ghost same = { λ one other. M.same one.marker other.marker × D.same one.components other.components };

    fn to_value(&self, alloc: Global) -> Result<Value, AllocError> {
        let components = write_parts(alloc, &self.components)?;
        let marker = self.marker.to_value(alloc)?;
        join_members(alloc, components, marker)
    }

    fn from_value(alloc: Global, json: &Value) -> Result<EntityData<M, D>, FormError> {
        let Some((components, marker)) = part_members(json) else {
            return Err(FormError::whole());
        };
        let components = read_components(alloc, components)?;
        let marker = read_marker(alloc, marker)?;
        Ok(EntityData { marker, components })
    }

    ghost told_apart = { λ one other. entities-apart M.form D.forms M.is_value D.is_value M.same D.same
        M.told_apart D.told_apart one.marker other.marker one.components other.components };

    ghost has_one_form = { λ one other same. entities-alike _ _ _ _
        (D.has_one_form one.components other.components same.1) (M.has_one_form one.marker other.marker same.0) };

    ghost never_null = { λ saved. entity-some (array (items_of (D.forms saved.components))) (M.form saved.marker) };
}

//! The entities of a document, read token by token.
ghost use Rattle.std.specs.Prelude.{◌≡◌, ◌<◌, ℕ, false, map, All, length, Some, IfOk, OnOk, IfSome, IsTrue};
ghost use Rattle.json.specs.Json.{read_key};
ghost use Rattle.serde_json.specs.Data.{Data, Items, Members, number, unsigned};
ghost use Rattle.serde_json.specs.Written.{has_float, items_have_float, members_have_float};
ghost use Rattle.scene_model.specs.Declaring.{texts};
ghost use Rattle.scene_model.specs.Parts.{is_among};
ghost use Rattle.scene_document.specs.Drafts.{each, part_under, entity_from, items_list, members_list};
ghost use Rattle.scene_document.specs.DraftViews.{named, plain_entity, IsPart, IsEntity};
ghost use Rattle.scene_document.specs.TokenWords.{ReadsAs, ReadsItems, ReadsMembers, IsKnownFrom};

use crate::draft::EntityDraft;
use crate::tokens::values::{take_value, unsigned_number};
use json::{Reader, Token};
use scene_model::{DocumentRules, ReadError};
use std::alloc::Global;

/// The first place of a name among these that is no lower than `from`.
fn place_from(names: &[&'static str], from: usize, name: &str) -> Option<usize>
    ensures { IfSome result (IsKnownFrom name.now (texts names.now) from) }
{
    for place in from..names.len() {
        if names[place] == name {
            return Some(place);
        }
    }
    None
}

/// Passes a key, which has to be this one.
fn take_key(reader: &mut Reader<'_>, wanted: &str) -> Result<(), ReadError>
    ensures { OnOk result (read_key reader.old ≡ Some (Some wanted.now, reader.new)) }
{
    match reader.next_key() {
        Ok(Some(name)) => if name == wanted {
            Ok(())
        } else {
            Err(ReadError::Shape)
        },
        _ => Err(ReadError::Shape),
    }
}

/// Takes a whole number of 64 bits.
fn take_id(reader: &mut Reader<'_>) -> Result<u64, ReadError>
    ensures value { IfOk result (λ id. (depth : ℕ) → ReadsAs depth reader.old (number (unsigned id)) reader.new) }
    ensures shorter { OnOk result (length reader.new < length reader.old) }
{
    let Some(Token::Number(text)) = reader.next() else {
        return Err(ReadError::Shape);
    };
    match unsigned_number(text) {
        Some(id) => Ok(id),
        None => Err(ReadError::Shape),
    }
}

/// Takes the part that is under a kind of the rules. Errors: `Shape` where they do not read it, or a number in it reads
/// as a float; `Memory`.
fn take_part<R: DocumentRules>(
    alloc: Global,
    rules: &R,
    reader: &mut Reader<'_>,
    kind: &str,
) -> Result<R::Data, ReadError>
    requires { IsTrue (is_among kind.now (R.book rules.now).part_names) }
    ensures value { IfOk result (λ datum. (json : Data) × ReadsAs 123 reader.old json reader.new
        × ((R.book rules.now).read_part kind.now json ≡ Some (R.part_of datum)) × (has_float json ≡ false)) }
    ensures shorter { OnOk result (length reader.new < length reader.old) }
{
    let value = take_value(alloc, reader, 123)?;
    rules.read_data(alloc, kind, &value)
}

/// The parts of an entity behind their opening brace, under kinds of the rules that ascend.
///
/// Errors: `Shape` where one is under another kind, or the rules do not read it; `Memory`.
fn take_parts<R: DocumentRules>(
    alloc: Global,
    rules: &R,
    reader: &mut Reader<'_>,
) -> Result<Vec<Option<(usize, R::Data)>>, ReadError>
    ensures value { IfOk result (λ parts. (members : Members) × ReadsMembers 123 reader.old members reader.new
        × (each (part_under (R.book rules.now)) (members_list members)
        ≡ Some (map (named R.part_of (R.book rules.now).part_names) parts.items))
        × All (IsPart R.part_of (R.book rules.now)) parts.items
        × (members_have_float members ≡ false)) }
    ensures shorter { OnOk result (length reader.new < length reader.old) }
{
    let names = rules.part_names();
    let mut parts = Vec::new(alloc);
    let mut from: usize = 0;
    'parts: loop {
        match reader.next_key() {
            Ok(Some(kind)) => {
                let Some(place) = place_from(names, from, kind) else {
                    return Err(ReadError::Shape);
                };
                let datum = take_part(alloc, rules, reader, kind)?;
                parts.push(Some((place, datum)))?;
                from = place + 1;
            }
            Ok(None) => return Ok(parts),
            Err(_) => return Err(ReadError::Shape),
        }
    }
}

/// An entity, whose id stands before its parts. Errors: those of `take_parts`, and `Shape` where it is none.
fn take_entity<R: DocumentRules>(
    alloc: Global,
    rules: &R,
    reader: &mut Reader<'_>,
) -> Result<EntityDraft<R::Data>, ReadError>
    ensures value { IfOk result (λ entity. (json : Data) × ReadsAs 125 reader.old json reader.new
        × (entity_from (R.book rules.now) json
        ≡ Some (plain_entity R.part_of (R.book rules.now).part_names entity))
        × IsEntity R.part_of (R.book rules.now) entity
        × (has_float json ≡ false)) }
    ensures shorter { OnOk result (length reader.new < length reader.old) }
{
    let Some(Token::BeginObject) = reader.next() else {
        return Err(ReadError::Shape);
    };
    take_key(reader, "id")?;
    let id = take_id(reader)?;
    take_key(reader, "parts")?;
    let Some(Token::BeginObject) = reader.next() else {
        return Err(ReadError::Shape);
    };
    let parts = take_parts(alloc, rules, reader)?;
    match reader.next_key() {
        Ok(None) => Ok(EntityDraft { id, parts }),
        _ => Err(ReadError::Shape),
    }
}

/// The entities of a list behind its opening bracket. Errors: those of `take_entity`.
pub(crate) fn take_entities<R: DocumentRules>(
    alloc: Global,
    rules: &R,
    reader: &mut Reader<'_>,
) -> Result<Vec<EntityDraft<R::Data>>, ReadError>
    ensures value { IfOk result (λ entities. (items : Items) × ReadsItems 125 reader.old items reader.new
        × (each (entity_from (R.book rules.now)) (items_list items)
        ≡ Some (map (plain_entity R.part_of (R.book rules.now).part_names) entities.items))
        × All (IsEntity R.part_of (R.book rules.now)) entities.items
        × (items_have_float items ≡ false)) }
    ensures shorter { OnOk result (length reader.new < length reader.old) }
{
    let mut entities = Vec::new(alloc);
    'entities: while !reader.take_end_array() {
        let entity = take_entity(alloc, rules, reader)?;
        entities.push(entity)?;
    }
    Ok(entities)
}

//! A document read token by token, where all that stands in it is plain: its entities as they stand in a draft, the
//! rest of it as JSON.
ghost use Rattle.std.specs.Prelude.{◌≡◌, IfOk, IfSome};
ghost use Rattle.serde_json.specs.Data.{Members, object};
ghost use Rattle.serde_json.specs.View.{view};
ghost use Rattle.scene_model.specs.Parts.{Json};
ghost use Rattle.scene_document.specs.Texts.{json_of};
ghost use Rattle.scene_document.specs.Apart.{IsApart};
ghost use Rattle.scene_document.specs.TokenWords.{ReadsMembers};

use crate::draft::EntityDraft;
use json::{Reader, Scratch, Token};
use scene_model::{DocumentRules, ReadError};
use serde_json::{Map, Value};
use std::alloc::{AllocError, Global};

mod rows;
mod values;

use crate::tokens::rows::take_entities;
use crate::tokens::values::take_member;

/// A document whose entities stand apart: what they say, and the JSON of the document with null in their place.
#[derive(Drop)]
pub struct ApartDocument<D> {
    pub rest: Value,
    pub entities: Vec<EntityDraft<D>>,
}

/// The entities of the document in these bytes, and its JSON with null in their place; none where anything in it isn't
/// plain, so that it has to be read as a whole.
///
/// Plain is: the bytes are JSON, one object with one list of entities. Each of them has its id first and then its parts,
/// under kinds of the rules that ascend. The rules read each part, and no number anywhere reads as a float.
///
/// Errors: want of memory.
pub fn read_apart<R: DocumentRules>(
    alloc: Global,
    rules: &R,
    bytes: &[u8],
) -> Result<Option<ApartDocument<R::Data>>, AllocError>
    ensures { IfOk result (λ found. IfSome found (λ apart. (json : Json) × (json_of bytes.now ≡ Some json)
        × IsApart R.part_of (R.book rules.now) json (view apart.rest) apart.entities.items)) }
{
    match take_document(alloc, rules, bytes) {
        Ok(apart) => Ok(Some(apart)),
        Err(ReadError::Shape) => Ok(None),
        Err(ReadError::Memory) => Err(AllocError),
    }
}

/// The document in these bytes, whose entities stand apart. Errors: `Shape` where anything isn't plain; `Memory`.
fn take_document<R: DocumentRules>(
    alloc: Global,
    rules: &R,
    bytes: &[u8],
) -> Result<ApartDocument<R::Data>, ReadError>
    ensures { IfOk result (λ apart. (json : Json) × (json_of bytes.now ≡ Some json)
        × IsApart R.part_of (R.book rules.now) json (view apart.rest) apart.entities.items) }
{
    let Ok(text) = std::str::from_utf8(bytes) else {
        return Err(ReadError::Shape);
    };
    let mut scratch = Scratch::new(alloc);
    let mut reader = Reader::new(text, &mut scratch)?;
    let Some(Token::BeginObject) = reader.next() else {
        return Err(ReadError::Shape);
    };
    let apart = take_members(alloc, rules, &mut reader)?;
    if reader.next().is_some() {
        return Err(ReadError::Shape);
    }
    Ok(apart)
}

/// The members of a document behind its opening brace. Errors: `Shape` where anything isn't plain; `Memory`.
fn take_members<R: DocumentRules>(
    alloc: Global,
    rules: &R,
    reader: &mut Reader<'_>,
) -> Result<ApartDocument<R::Data>, ReadError>
    ensures { IfOk result (λ apart. (members : Members) × ReadsMembers 126 reader.old members reader.new
        × IsApart R.part_of (R.book rules.now) (object members) (view apart.rest) apart.entities.items) }
{
    let mut found = Map::new(alloc);
    'first: loop {
        let Ok(Some(name)) = reader.next_key() else {
            return Err(ReadError::Shape);
        };
        if name == "entities" {
            break;
        }
        take_member(alloc, reader, 126, name, &mut found)?;
    }
    let Some(Token::BeginArray) = reader.next() else {
        return Err(ReadError::Shape);
    };
    let entities = take_entities(alloc, rules, reader)?;
    let here = String::from_str(alloc, "entities")?;
    drop(found.insert(here, Value::Null)?);
    'rest: loop {
        match reader.next_key() {
            Ok(Some(name)) => {
                if name == "entities" {
                    return Err(ReadError::Shape);
                }
                take_member(alloc, reader, 126, name, &mut found)?;
            }
            Ok(None) => {
                return Ok(ApartDocument {
                    rest: Value::Object(found),
                    entities,
                });
            }
            Err(_) => return Err(ReadError::Shape),
        }
    }
}

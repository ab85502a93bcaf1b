//! JSON forms: the texts that values are written as, what is read back, and what is refused.
use rand_pcg::Pcg32;
use serde_json::Value;
use specs_markers::{SimpleMarker, UuidMarker};
use specs_saveload::laws::{none_is_written_as_null, what_was_written_is_read_back};
use specs_saveload::{EntityData, FormError, JsonForm, Key, Place, list_from_value};
use std::alloc::Global;

/// The kind of the markers.
struct Net;

/// The type as which a text is read.
enum Kind {
    Unsigned8,
    Unsigned16,
    Unsigned32,
    Unsigned64,
    UnsignedSize,
    Signed8,
    Signed16,
    Signed32,
    Signed64,
    SignedSize,
    Truth,
    Text,
    Perhaps,
    Pair,
    Triple,
    Quadruple,
    Simple,
    Random,
    One,
    Two,
    Three,
    Bytes,
    Ones,
}

use Key::{Components, Marker, Named};
use Kind::{
    Bytes, One, Ones, Pair, Perhaps, Quadruple, Random, Signed8, Signed16, Signed32, Signed64,
    SignedSize, Simple, Text, Three, Triple, Truth, Two, Unsigned8, Unsigned16, Unsigned32,
    Unsigned64, UnsignedSize,
};

/// A text that is read as a value of a type and written again as it was, or is refused.
struct Row {
    kind: Kind,
    text: &'static str,
    is_form: bool,
}

const ROWS: [Row; 48] = [
    Row {
        kind: Unsigned8,
        text: "255",
        is_form: true,
    },
    Row {
        kind: Unsigned8,
        text: "256",
        is_form: false,
    },
    Row {
        kind: Unsigned8,
        text: "-1",
        is_form: false,
    },
    Row {
        kind: Unsigned16,
        text: "65535",
        is_form: true,
    },
    Row {
        kind: Unsigned32,
        text: "4294967296",
        is_form: false,
    },
    Row {
        kind: Unsigned64,
        text: "18446744073709551615",
        is_form: true,
    },
    Row {
        kind: Unsigned64,
        text: "1.0",
        is_form: false,
    },
    Row {
        kind: UnsignedSize,
        text: "0",
        is_form: true,
    },
    Row {
        kind: Signed8,
        text: "-128",
        is_form: true,
    },
    Row {
        kind: Signed8,
        text: "-129",
        is_form: false,
    },
    Row {
        kind: Signed8,
        text: "128",
        is_form: false,
    },
    Row {
        kind: Signed16,
        text: "32767",
        is_form: true,
    },
    Row {
        kind: Signed32,
        text: "-2147483648",
        is_form: true,
    },
    Row {
        kind: Signed64,
        text: "-9223372036854775808",
        is_form: true,
    },
    Row {
        kind: Signed64,
        text: "9223372036854775808",
        is_form: false,
    },
    Row {
        kind: SignedSize,
        text: "7",
        is_form: true,
    },
    Row {
        kind: Truth,
        text: "true",
        is_form: true,
    },
    Row {
        kind: Truth,
        text: "1",
        is_form: false,
    },
    Row {
        kind: Text,
        text: "\"ab\"",
        is_form: true,
    },
    Row {
        kind: Text,
        text: "null",
        is_form: false,
    },
    Row {
        kind: Perhaps,
        text: "[]",
        is_form: true,
    },
    Row {
        kind: Perhaps,
        text: "[3]",
        is_form: true,
    },
    Row {
        kind: Perhaps,
        text: "[3,4]",
        is_form: false,
    },
    Row {
        kind: Perhaps,
        text: "null",
        is_form: false,
    },
    Row {
        kind: Pair,
        text: "[1,false]",
        is_form: true,
    },
    Row {
        kind: Pair,
        text: "[1]",
        is_form: false,
    },
    Row {
        kind: Triple,
        text: "[1,false,[]]",
        is_form: true,
    },
    Row {
        kind: Triple,
        text: "[1,false,null]",
        is_form: false,
    },
    Row {
        kind: Quadruple,
        text: "[1,false,[],-2]",
        is_form: true,
    },
    Row {
        kind: Quadruple,
        text: "[1,false,[],-2,0]",
        is_form: false,
    },
    Row {
        kind: Simple,
        text: "18446744073709551614",
        is_form: true,
    },
    Row {
        kind: Simple,
        text: "\"0\"",
        is_form: false,
    },
    Row {
        kind: Random,
        text: "\"6ba7b810-9dad-11d1-80b4-00c04fd430c8\"",
        is_form: true,
    },
    Row {
        kind: Random,
        text: "\"6BA7B810-9DAD-11D1-80B4-00C04FD430C8\"",
        is_form: false,
    },
    Row {
        kind: Random,
        text: "\"6ba7b8109dad11d180b400c04fd430c8\"",
        is_form: false,
    },
    Row {
        kind: One,
        text: "{\"components\":[1],\"marker\":0}",
        is_form: true,
    },
    Row {
        kind: One,
        text: "{\"components\":[null],\"marker\":1}",
        is_form: true,
    },
    Row {
        kind: One,
        text: "{\"components\":[],\"marker\":1}",
        is_form: false,
    },
    Row {
        kind: One,
        text: "{\"components\":[1,2],\"marker\":1}",
        is_form: false,
    },
    Row {
        kind: One,
        text: "{\"components\":[1]}",
        is_form: false,
    },
    Row {
        kind: One,
        text: "{\"components\":[1],\"marker\":0,\"name\":2}",
        is_form: false,
    },
    Row {
        kind: Two,
        text: "{\"components\":[null,true],\"marker\":0}",
        is_form: true,
    },
    Row {
        kind: Three,
        text: "{\"components\":[1,null,[]],\"marker\":0}",
        is_form: true,
    },
    Row {
        kind: Three,
        text: "{\"components\":[1,null,null],\"marker\":null}",
        is_form: false,
    },
    Row {
        kind: Bytes,
        text: "[]",
        is_form: true,
    },
    Row {
        kind: Bytes,
        text: "[1,2,255]",
        is_form: true,
    },
    Row {
        kind: Ones,
        text: "[{\"components\":[1],\"marker\":0},{\"components\":[null],\"marker\":1}]",
        is_form: true,
    },
    Row {
        kind: Ones,
        text: "null",
        is_form: false,
    },
];

/// A text that is refused in a type, and the place that is told.
struct Refused {
    kind: Kind,
    text: &'static str,
    number: Option<usize>,
    key: Option<Key>,
}

const REFUSED: [Refused; 22] = [
    Refused {
        kind: Unsigned8,
        text: "256",
        number: None,
        key: None,
    },
    Refused {
        kind: Random,
        text: "\"0\"",
        number: None,
        key: None,
    },
    Refused {
        kind: Perhaps,
        text: "[3,4]",
        number: None,
        key: None,
    },
    Refused {
        kind: Perhaps,
        text: "[256]",
        number: Some(0),
        key: None,
    },
    Refused {
        kind: Pair,
        text: "[256]",
        number: None,
        key: None,
    },
    Refused {
        kind: Pair,
        text: "[256,1]",
        number: Some(0),
        key: None,
    },
    Refused {
        kind: Pair,
        text: "[1,1]",
        number: Some(1),
        key: None,
    },
    Refused {
        kind: Triple,
        text: "[1,false,[256]]",
        number: Some(2),
        key: None,
    },
    Refused {
        kind: Quadruple,
        text: "[1,false,[],128]",
        number: Some(3),
        key: None,
    },
    Refused {
        kind: One,
        text: "{\"components\":[256]}",
        number: None,
        key: None,
    },
    Refused {
        kind: One,
        text: "{\"components\":1,\"marker\":null}",
        number: None,
        key: Some(Components),
    },
    Refused {
        kind: One,
        text: "{\"components\":[256],\"marker\":null}",
        number: Some(0),
        key: Some(Components),
    },
    Refused {
        kind: One,
        text: "{\"components\":[1],\"marker\":null}",
        number: None,
        key: Some(Marker),
    },
    Refused {
        kind: One,
        text: "{\"components\":[1,2],\"marker\":1}",
        number: None,
        key: Some(Components),
    },
    Refused {
        kind: Two,
        text: "{\"components\":[1,2],\"marker\":0}",
        number: Some(1),
        key: Some(Components),
    },
    Refused {
        kind: Two,
        text: "{\"components\":[1],\"marker\":0}",
        number: None,
        key: Some(Components),
    },
    Refused {
        kind: Three,
        text: "{\"components\":[null,true,3],\"marker\":0}",
        number: Some(2),
        key: Some(Components),
    },
    Refused {
        kind: Bytes,
        text: "1",
        number: None,
        key: None,
    },
    Refused {
        kind: Bytes,
        text: "[1,2,256]",
        number: Some(2),
        key: None,
    },
    Refused {
        kind: Bytes,
        text: "[1,256,256]",
        number: Some(1),
        key: None,
    },
    Refused {
        kind: Ones,
        text: "[{\"components\":[1],\"marker\":0},{\"components\":[2],\"marker\":true}]",
        number: Some(1),
        key: Some(Marker),
    },
    Refused {
        kind: Ones,
        text: "[{\"components\":[7],\"marker\":0},{\"components\":[8],\"marker\":1},{\"components\":[9,256],\"marker\":2}]",
        number: Some(2),
        key: Some(Components),
    },
];

/// A refusal, and its text.
struct Told {
    error: FormError,
    text: &'static str,
}

const TOLD: [Told; 6] = [
    Told {
        error: FormError::Shape(Place {
            number: None,
            key: None,
        }),
        text: "the JSON has another shape",
    },
    Told {
        error: FormError::Shape(Place {
            number: Some(0),
            key: None,
        }),
        text: "the JSON has another shape at item 0",
    },
    Told {
        error: FormError::Shape(Place {
            number: None,
            key: Some(Components),
        }),
        text: "the JSON has another shape under `components`",
    },
    Told {
        error: FormError::Shape(Place {
            number: Some(3),
            key: Some(Marker),
        }),
        text: "the JSON has another shape at item 3, under `marker`",
    },
    Told {
        error: FormError::Shape(Place {
            number: None,
            key: Some(Named("count")),
        }),
        text: "the JSON has another shape under `count`",
    },
    Told {
        error: FormError::Memory,
        text: "out of memory",
    },
];

/// What a JSON is read as, read back once more and written again.
fn again<T: JsonForm>(alloc: Global, json: &Value) -> Result<Value, FormError> {
    let value = T::from_value(alloc, json)?;
    let same = what_was_written_is_read_back(alloc, &value)?;
    Ok(none_is_written_as_null(alloc, &same)?)
}

/// What each of a list is read as, written again.
fn each_again<T: JsonForm>(alloc: Global, json: &Value) -> Result<Value, FormError> {
    let list: Vec<T> = list_from_value(alloc, json)?;
    let mut values = Vec::new(alloc);
    for value in &list {
        let written = value.to_value(alloc)?;
        if values.push(written).is_err() {
            return Err(FormError::Memory);
        }
    }
    Ok(Value::Array(values))
}

/// What a JSON is read as in a type, written again.
fn through(alloc: Global, kind: &Kind, json: &Value) -> Result<Value, FormError> {
    match kind {
        Unsigned8 => again::<u8>(alloc, json),
        Unsigned16 => again::<u16>(alloc, json),
        Unsigned32 => again::<u32>(alloc, json),
        Unsigned64 => again::<u64>(alloc, json),
        UnsignedSize => again::<usize>(alloc, json),
        Signed8 => again::<i8>(alloc, json),
        Signed16 => again::<i16>(alloc, json),
        Signed32 => again::<i32>(alloc, json),
        Signed64 => again::<i64>(alloc, json),
        SignedSize => again::<isize>(alloc, json),
        Truth => again::<bool>(alloc, json),
        Text => again::<String>(alloc, json),
        Perhaps => again::<Option<u8>>(alloc, json),
        Pair => again::<(u8, bool)>(alloc, json),
        Triple => again::<(u8, bool, Option<u8>)>(alloc, json),
        Quadruple => again::<(u8, bool, Option<u8>, i8)>(alloc, json),
        Simple => again::<SimpleMarker<Net>>(alloc, json),
        Random => again::<UuidMarker<Pcg32>>(alloc, json),
        One => again::<EntityData<SimpleMarker<Net>, Option<u8>>>(alloc, json),
        Two => again::<EntityData<SimpleMarker<Net>, (Option<u8>, Option<bool>)>>(alloc, json),
        Three => again::<
            EntityData<SimpleMarker<Net>, (Option<u8>, Option<bool>, Option<Option<u8>>)>,
        >(alloc, json),
        Bytes => each_again::<u8>(alloc, json),
        Ones => each_again::<EntityData<SimpleMarker<Net>, Option<u8>>>(alloc, json),
    }
}

/// Whether a text is read and written as its row says.
fn holds(alloc: Global, row: &Row) -> bool {
    let Ok(json) = Value::from_str(alloc, row.text) else {
        return false;
    };
    match through(alloc, &row.kind, &json) {
        Ok(written) => {
            row.is_form && matches!(written.to_string(alloc), Ok(text) if text.as_str() == row.text)
        }
        Err(error) => error != FormError::Memory && !row.is_form,
    }
}

#[test]
fn forms_are_read_and_written(rt: HostRuntime) {
    let mut wrong = None;
    for row in &ROWS {
        if !holds(rt.alloc(), row) {
            wrong = Some(row.text);
        }
    }
    assert_eq!(rt; wrong, None);
}

/// Whether a text is refused at the place of its row.
fn is_refused(alloc: Global, row: &Refused) -> bool {
    let Ok(json) = Value::from_str(alloc, row.text) else {
        return false;
    };
    let place = Place {
        number: row.number,
        key: row.key,
    };
    matches!(through(alloc, &row.kind, &json), Err(error) if error == FormError::Shape(place))
}

#[test]
fn refusals_tell_the_place(rt: HostRuntime) {
    let mut wrong = None;
    for row in &REFUSED {
        if !is_refused(rt.alloc(), row) {
            wrong = Some(row.text);
        }
    }
    assert_eq!(rt; wrong, None);
}

/// Whether a refusal has the text of its row.
fn is_told(alloc: Global, row: &Told) -> bool {
    let error = row.error;
    matches!(format!(in alloc; "{error}"), Ok(text) if text.as_str() == row.text)
}

#[test]
fn refusals_have_a_text(rt: HostRuntime) {
    let mut wrong = None;
    for row in &TOLD {
        if !is_told(rt.alloc(), row) {
            wrong = Some(row.text);
        }
    }
    assert_eq!(rt; wrong, None);
}

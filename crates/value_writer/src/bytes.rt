//! What is put behind other bytes.
ghost use Rattle.std.specs.Prelude.{◌≡◌, ◌++◌, OnOk};

use crate::names::ends_in_ies;
use std::alloc::AllocError;

/// Puts a text as it is.
pub(crate) fn put(out: &mut Vec<u8>, text: &str) -> Result<(), AllocError>
    ensures { OnOk result (out.new.items ≡ out.old.items ++ text.now) }
{
    out.extend_from_slice(text.as_bytes())
}

/// Puts a byte.
fn put_byte(out: &mut Vec<u8>, byte: u8) -> Result<(), AllocError> {
    match out.push(byte) {
        Ok(()) => Ok(()),
        Err(_) => Err(AllocError),
    }
}

/// Puts a name in small letters, a `_` before each of its capital ones but the first.
pub(crate) fn put_snake(out: &mut Vec<u8>, name: &str) -> Result<(), AllocError> {
    let mut is_first = true;
    for byte in name.as_bytes() {
        if byte.is_ascii_uppercase() && !is_first {
            put_byte(out, b'_')?;
        }
        put_byte(out, byte.to_ascii_lowercase())?;
        is_first = false;
    }
    Ok(())
}

/// Puts the name of many: `Healths`, `Velocities`.
pub(crate) fn put_plural(out: &mut Vec<u8>, name: &str) -> Result<(), AllocError> {
    if !ends_in_ies(name) {
        put(out, name)?;
        return put(out, "s");
    }
    match name.strip_suffix('y') {
        Some(stem) => put(out, stem)?,
        None => put(out, name)?,
    }
    put(out, "ies")
}

/// Puts a path of modules with something between its names.
pub(crate) fn put_path(out: &mut Vec<u8>, path: &str, between: &str) -> Result<(), AllocError> {
    let mut is_first = true;
    for name in path.split("::") {
        if !is_first {
            put(out, between)?;
        }
        put(out, name)?;
        is_first = false;
    }
    Ok(())
}

/// Puts a path of modules as one name in capital letters and small ones: `lazy::values` as `LazyValues`.
pub(crate) fn put_camel(out: &mut Vec<u8>, path: &str) -> Result<(), AllocError> {
    let mut is_begin = true;
    for byte in path.as_bytes() {
        if *byte == b':' || *byte == b'_' {
            is_begin = true;
        } else if is_begin {
            put_byte(out, byte.to_ascii_uppercase())?;
            is_begin = false;
        } else {
            put_byte(out, *byte)?;
        }
    }
    Ok(())
}

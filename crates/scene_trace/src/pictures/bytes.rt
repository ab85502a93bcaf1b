//! What is put behind other bytes.
ghost use Rattle.std.specs.Prelude.{◌≡◌, ◌++◌, OnOk, decimal};
ghost use Rattle.scene_trace.specs.Texts.{html_byte, html_text, HasNoTag};

use itoa::Buffer;
use std::alloc::AllocError;

/// Puts a text as it is.
pub(crate) fn put(out: &mut Vec<u8>, text: &str) -> Result<(), AllocError>
    ensures { OnOk result (out.new.items ≡ out.old.items ++ text.now) }
{
    out.extend_from_slice(text.as_bytes())
}

/// Puts a number in decimal digits.
pub(crate) fn put_number(out: &mut Vec<u8>, number: u64) -> Result<(), AllocError>
    ensures { OnOk result (out.new.items ≡ out.old.items ++ decimal number) }
{
    put(out, Buffer::new().format(number))
}

/// Puts a byte of a text as HTML has it.
fn put_html_byte(out: &mut Vec<u8>, byte: u8) -> Result<(), AllocError>
    ensures { OnOk result (out.new.items ≡ out.old.items ++ html_byte byte) }
{
    match byte {
        b'&' => put(out, "&amp;"),
        b'<' => put(out, "&lt;"),
        b'>' => put(out, "&gt;"),
        b'"' => put(out, "&quot;"),
        b'\'' => put(out, "&#39;"),
        _ => {
            out.push(byte)?;
            Ok(())
        }
    }
}

/// Puts a text as HTML has it, where it may stand between tags and in the value of an attribute: `&`, `<`, `>` and quotes are
/// named.
///
/// Errors: want of memory, which leaves a part of it behind the bytes.
pub fn put_html(out: &mut Vec<u8>, text: &str) -> Result<(), AllocError>
    ensures ok { OnOk result (out.new.items ≡ out.old.items ++ html_text text.now) }
    ensures no_tag { HasNoTag (html_text text.now) }
{
    for byte in text.as_bytes() {
        put_html_byte(out, *byte)?;
    }
    Ok(())
}

//! Names in a list, and as they are written.

/// How long a name of a kind may be.
const LONGEST: usize = 40;

/// Whether a text is a name of a type: a capital letter, and up to 39 letters behind it.
pub(crate) fn is_type_name(text: &str) -> bool {
    let bytes = text.as_bytes();
    match bytes.first() {
        Some(first) => {
            first.is_ascii_uppercase()
                && bytes.len() <= LONGEST
                && bytes.iter().all(|byte| byte.is_ascii_alphabetic())
        }
        None => false,
    }
}

/// Whether a byte may stand in the name of a module.
fn is_module_byte(byte: u8) -> bool {
    byte.is_ascii_lowercase() || byte.is_ascii_digit() || byte == b'_'
}

/// Whether a text is a name of a module, of small letters, digits and `_`.
pub(crate) fn is_module_name(text: &str) -> bool {
    let bytes = text.as_bytes();
    match bytes.first() {
        Some(first) => first.is_ascii_lowercase() && bytes.iter().all(|byte| is_module_byte(*byte)),
        None => false,
    }
}

/// Whether a text is a path of modules.
pub(crate) fn is_path(text: &str) -> bool {
    text.split("::").all(|name| is_module_name(name))
}

/// Whether a letter is a vowel.
fn is_vowel(byte: u8) -> bool {
    match byte {
        b'a' | b'e' | b'i' | b'o' | b'u' => true,
        _ => false,
    }
}

/// Whether many of a name end in `ies`: it ends in `y`, and no vowel is before it.
pub(crate) fn ends_in_ies(name: &str) -> bool {
    match name.as_bytes() {
        [.., before, b'y'] => !is_vowel(*before),
        _ => false,
    }
}

//! What may stand as a name. The lexer, the typing and the type of protocols cite this one definition.

ghost use Rattle.std.specs.Prelude.{◌≡◌, bytes_eq};
ghost use Rattle.std.specs.List.{list_all};
ghost use Rattle.cub_base.specs.Name.{is_name_start, is_name_byte, is_name, is_reserved, is_declarable, has_name_form};

/// Whether a name may begin with the byte: a letter or an underscore.
pub fn is_name_start(byte: u8) -> bool
    ensures { result ≡ is_name_start byte }
{
    byte.is_ascii_alphabetic() || byte == b'_'
}

/// Whether a name may go on with the byte: a letter, a digit or an underscore.
pub fn is_name_byte(byte: u8) -> bool
    ensures { result ≡ is_name_byte byte }
{
    byte.is_ascii_alphanumeric() || byte == b'_'
}

fn are_name_bytes(bytes: &[u8]) -> bool
    ensures { result ≡ list_all is_name_byte bytes.now }
{
    bytes.iter().all(|byte| is_name_byte(*byte))
}

fn has_name_form(bytes: &[u8]) -> bool
    ensures { result ≡ has_name_form bytes.now }
{
    match bytes {
        [] => false,
        [first, rest @ ..] => is_name_start(*first) && are_name_bytes(rest),
    }
}

fn is_word(bytes: &[u8], word: &[u8]) -> bool
    ensures { result ≡ bytes_eq bytes.now word.now }
{
    bytes == word
}

/// Whether the bytes are a name: 1 to 64 bytes, a letter or an underscore first, not the underscore alone.
pub fn is_name(bytes: &[u8]) -> bool
    ensures { result ≡ is_name bytes.now }
{
    bytes.len() <= 64 && has_name_form(bytes) && !is_word(bytes, b"_")
}

/// Whether the bytes are a reserved word of the language.
pub fn is_reserved(bytes: &[u8]) -> bool
    ensures { result ≡ is_reserved bytes.now }
{
    is_word(bytes, b"type")
        || is_word(bytes, b"var")
        || is_word(bytes, b"array")
        || is_word(bytes, b"init")
        || is_word(bytes, b"unsafe")
        || is_word(bytes, b"invariant")
        || is_word(bytes, b"transition")
        || is_word(bytes, b"requires")
        || is_word(bytes, b"forall_other")
        || is_word(bytes, b"case")
        || is_word(bytes, b"not")
        || is_word(bytes, b"proc")
        || is_word(bytes, b"bool")
        || is_word(bytes, b"int")
}

/// Whether a declaration may introduce the bytes: a name that is no reserved word.
pub fn is_declarable(bytes: &[u8]) -> bool
    ensures { result ≡ is_declarable bytes.now }
{
    is_name(bytes) && !is_reserved(bytes)
}

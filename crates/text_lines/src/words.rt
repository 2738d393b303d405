//! Words: runs of bytes between separators. A reader that looks at words alone is simple and reads loosely; whoever wants
//! to know whether a line is written as it should be writes again what was read, and compares.

ghost use Rattle.std.specs.Prelude.{◌≡◌, ◌≤◌, length};
ghost use Rattle.std.specs.List.{prefix_len};
ghost use Rattle.std.specs.Prelude.{bytes_eq};
ghost use Rattle.text_lines.specs.Word.{is_separator, is_word_byte, word, behind, skip, front, back};

/// Whether the byte stands between words: a blank, a bracket, a comma, a colon, a number sign or a line feed.
pub fn is_separator(byte: u8) -> bool
    ensures { result ≡ is_separator byte }
{
    byte == b' '
        || byte == b'('
        || byte == b')'
        || byte == b'['
        || byte == b']'
        || byte == b'{'
        || byte == b'}'
        || byte == b'#'
        || byte == b','
        || byte == b':'
        || byte == b'\n'
}

fn gap_len(bytes: &[u8]) -> usize
    ensures value { result ≡ prefix_len is_separator bytes.now }
    ensures within { result ≤ length bytes.now }
{
    for (at, byte) in bytes.iter().enumerate() {
        if !is_separator(*byte) {
            return at;
        }
    }
    bytes.len()
}

fn word_len(bytes: &[u8]) -> usize
    ensures value { result ≡ prefix_len is_word_byte bytes.now }
    ensures within { result ≤ length bytes.now }
{
    for (at, byte) in bytes.iter().enumerate() {
        if is_separator(*byte) {
            return at;
        }
    }
    bytes.len()
}

fn skip(bytes: &[u8]) -> &[u8]
    ensures { result.now ≡ skip bytes.now }
{
    let (_, rest) = bytes.split_at(gap_len(bytes));
    rest
}

fn cut_word(bytes: &[u8]) -> (&[u8], &[u8])
    ensures word { result.0.now ≡ front bytes.now }
    ensures rest { result.1.now ≡ back bytes.now }
{
    bytes.split_at(word_len(bytes))
}

/// The first word and what stands behind it. The word is empty where none is left.
pub fn next_word(bytes: &[u8]) -> (&[u8], &[u8])
    ensures word { result.0.now ≡ word bytes.now }
    ensures rest { result.1.now ≡ behind bytes.now }
{
    cut_word(skip(bytes))
}

/// Whether the bytes are the word.
pub fn is_word(bytes: &[u8], word: &[u8]) -> bool
    ensures { result ≡ bytes_eq bytes.now word.now }
{
    bytes == word
}

//! Blanks and comments. A comment is read from the left in one pass with a count of how many are open, so `(*)` opens
//! one and closes none.

ghost use Rattle.std.specs.Prelude.{◌≡◌, ◌<◌, ◌≤◌, length, IfSome};
ghost use Rattle.cub_lexer.specs.Comment.{is_blank, is_opening, is_closing, comment_len};

pub fn is_blank(byte: u8) -> bool
    ensures { result ≡ is_blank byte }
{
    byte == b' ' || byte == b'\t' || byte == b'\n' || byte == b'\r'
}

pub fn is_opening(byte: u8, next: u8) -> bool
    ensures { result ≡ is_opening byte next }
{
    byte == b'(' && next == b'*'
}

fn is_closing(byte: u8, next: u8) -> bool
    ensures { result ≡ is_closing byte next }
{
    byte == b'*' && next == b')'
}

/// How many bytes the comment takes whose opening the bytes begin with, if it is closed.
pub fn comment_len(bytes: &[u8]) -> Option<usize>
    requires { 2 ≤ length bytes.now }
    ensures value { result ≡ comment_len bytes.now }
    ensures within { IfSome result (λ len. (0 < len) × (len ≤ length bytes.now)) }
{
    let mut depth: usize = 1;
    let mut at: usize = 2;
    while depth > 0 {
        if bytes.len() - at < 2 {
            return None;
        }
        let byte = bytes[at];
        let next = bytes[at + 1];
        if is_opening(byte, next) {
            depth += 1;
            at += 2;
        } else if is_closing(byte, next) {
            depth -= 1;
            at += 2;
        } else {
            at += 1;
        }
    }
    Some(at)
}

//! Lines. A text is cut at its line feeds, one line at a time, so that a reader never looks at a byte twice to find one.

ghost use Rattle.std.specs.Prelude.{◌≡◌, ◌≤◌, length, not, ◌==◌, Option, Some, None, option_map};
ghost use Rattle.std.specs.List.{prefix_len};
ghost use Rattle.text_lines.specs.Line.{line_len, line_at};

fn line_len(text: &[u8]) -> usize
    ensures value { result ≡ line_len text.now }
    ensures within { result ≤ length text.now }
{
    for (at, byte) in text.iter().enumerate() {
        if *byte == b'\n' {
            return at;
        }
    }
    text.len()
}

/// The first line without its line feed, and the text behind it; none where no line feed is left.
pub fn cut_line(text: &[u8]) -> Option<(&[u8], &[u8])>
    ensures { option_map (λ x. (x.0.now, x.1.now)) result ≡ line_at text.now }
{
    let len = line_len(text);
    if len < text.len() {
        let (line, _) = text.split_at(len);
        let (_, rest) = text.split_at(len + 1);
        Some((line, rest))
    } else {
        None
    }
}

//! Lines, by how they begin.

ghost use Rattle.std.specs.Prelude.{◌≡◌, position};
ghost use Rattle.std.specs.Option.{option_copied};
ghost use Rattle.litmus_reader.specs.Marks.{begins, before_line, from_line, is_line_feed, is_unread, is_condition, is_visible, is_brace};

use texts::cutting::without_front;

/// How a line begins, past its blanks.
#[derive(Clone, Copy, PartialEq, Eq)]
pub enum Mark {
    /// With any byte: the line isn't blank.
    Visible,
    /// With `{`.
    Brace,
    /// With the first word of a condition, or of a part that isn't read.
    Condition,
    /// With the first word of a part that isn't read.
    Unread,
}

fn begins_unread(line: &[u8]) -> bool
    ensures { result ≡ is_unread line.now }
{
    line.starts_with(b"locations") || line.starts_with(b"filter")
}

fn begins_condition(line: &[u8]) -> bool
    ensures { result ≡ is_condition line.now }
{
    line.starts_with(b"exists") || line.starts_with(b"~exists") || line.starts_with(b"forall")
}

/// Whether the line has a byte before its end.
fn is_visible(line: &[u8]) -> bool
    ensures { result ≡ is_visible line.now }
{
    match line.first() {
        Some(byte) => *byte != b'\n',
        None => false,
    }
}

fn is_brace(line: &[u8]) -> bool
    ensures { result ≡ is_brace line.now }
{
    match line.first() {
        Some(byte) => *byte == b'{',
        None => false,
    }
}

impl Mark {
    /// Whether the text's first line begins so.
    #[tactic(auto, unfolding(crate::specs::Marks::begins))]
    pub fn begins(self, text: &[u8]) -> bool
        ensures { result ≡ begins self text.now }
    {
        let line = without_front(text);
        match self {
            Mark::Visible => is_visible(line),
            Mark::Brace => is_brace(line),
            Mark::Condition => begins_condition(line) || begins_unread(line),
            Mark::Unread => begins_unread(line),
        }
    }
}

fn line_feed_in(text: &[u8]) -> Option<usize>
    ensures { result ≡ position is_line_feed text.now }
{
    text.iter().position(|byte| *byte == b'\n')
}

/// What stands before the first line that begins so, and the text from that line on, if there is one.
pub fn cut_at_line(mark: Mark, text: &[u8]) -> (&[u8], Option<&[u8]>)
    ensures front { result.0.now ≡ before_line mark text.now }
    ensures back { option_copied result.1 ≡ from_line mark text.now }
{
    let mut at = 0;
    loop {
        let rest = &text[at..];
        if mark.begins(rest) {
            return (&text[..at], Some(rest));
        }
        match line_feed_in(rest) {
            Some(end) => at += end + 1,
            None => return (text, None),
        }
    }
}

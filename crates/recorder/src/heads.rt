//! The head lines of schedules.

ghost use Rattle.std.specs.Prelude.{◌≡◌, ◌≤◌, length, IsTrue};
ghost use Rattle.recorder.specs.Reading.{ends_line};
ghost use Rattle.recorder.specs.Reading as reading;

/// The first line of a schedule of events alone, without its end.
pub const HEAD: &str = "ztso-schedule 1";

/// The first line of a record, without its end.
pub const RECORD_HEAD: &str = "ztso-schedule 2";

/// Whether a line ends where these bytes begin.
fn line_ends(following: &[u8]) -> bool
    ensures { result ≡ ends_line following.now }
{
    matches!(following, [] | [b'\n', ..] | [b'\r', b'\n', ..])
}

/// Whether the text's first line is this head.
#[tactic(auto, using(crate::proofs::TextLaws::rest_from), unfolding(crate::specs::Reading::has_head))]
pub fn has_head(head: &str, text: &[u8]) -> bool
    ensures exact { result ≡ reading.has_head head.now text.now }
    ensures whole { IsTrue result → length head.now ≤ length text.now }
{
    text.starts_with(head.as_bytes()) && line_ends(&text[head.len()..])
}

//! The lines of a page.
ghost use Rattle.std.specs.Prelude.{◌≡◌, false, IsTrue};
ghost use Rattle.bidi_lines.specs.Feeds.{has_feed};
ghost use Rattle.bidi_lines.specs.InputLines.{IsLine};
ghost use Rattle.bidi_script_lines.specs.View.{said_by};
ghost use Rattle.bidi_recorder.specs.PageLines.{is_said_by_pages};

use bidi_lines::LONGEST_LINE;
use bidi_remote::Step;
use bidi_script_lines::ScriptLine;

// Whether a page may say this line: it is one of a page or of a test, or sets the clock.
pub(crate) fn is_said_by_pages(line: &ScriptLine) -> bool
    ensures { result ≡ is_said_by_pages (said_by line.now) }
{
    match line {
        ScriptLine::Step(Step::Open(..) | Step::Drop(_) | Step::Text(..) | Step::NotText(_)) => {
            false
        }
        _ => true,
    }
}

// Whether a text fits on one line.
pub(crate) fn is_line(text: &str) -> bool
    ensures yes { IsTrue result → IsLine text.now }
    ensures no { result ≡ false → IsLine text.now → ⊥ }
{
    if text.len() > LONGEST_LINE {
        return false;
    }
    !has_feed(text)
}

// Whether a text has a line feed in it.
fn has_feed(text: &str) -> bool
    ensures { result ≡ has_feed text.now }
{
    text.as_bytes().iter().any(|b| *b == b'\n')
}

//! Where the text of an action ends. (POSIX, lex, Rules in lex.)
ghost use Rattle.std.specs.Prelude.{◌≡◌, ◌+◌, ◌<◌, ◌^◌, ◌&&◌, ◌==◌, if◌then◌else◌, ℕ};
ghost use Rattle.std.specs.Prelude.{List, [], Option, Some, None, option_map, drop, codes};
ghost use Rattle.lex_semantics.specs.Reading.{begins};
ghost use Rattle.lexspec_lines.specs.Lines.{is_all_blank};
ghost use Rattle.lexspec_actions.specs.ByteSteps.{slash};
ghost use Rattle.lexspec.specs.ActionSteps.{action_in, code, outside};
ghost use Rattle.lexspec.specs.Items.{action_at};
ghost use Rattle.lexspec.specs.ActionViews.{place_of, IsStep, MostOpen};

use lexre_bytes::skip_first;
use lexspec_lines::is_all_blank;

/// Where the text of an action stands.
#[derive(Clone, Copy)]
enum ActionPlace {
    /// Outside strings and comments.
    Outside,
    /// After a slash there.
    Slash,
    /// In a comment `/* .. */`.
    Block,
    /// After a star in one.
    Star,
    /// In a comment to the end of the line.
    Line,
    /// In a string.
    String,
    /// After a backslash in one.
    Escaped,
}

/// Where the text of an action stands, and how many braces are open there.
#[derive(Clone, Copy)]
struct ActionCursor {
    place: ActionPlace,
    depth: usize,
}

/// What a byte does.
#[derive(Clone, Copy)]
enum ActionStep {
    /// The action goes on from there.
    Goes(ActionCursor),
    /// The action ended before it.
    Ends,
    /// A string is not closed.
    Refused,
}

impl ActionCursor {
    /// What the byte does outside strings and comments, where it is not the second byte of a comment's opening.
    fn past_outside(self, byte: u8) -> ActionStep
        requires { self.depth + 1 < 2 ^ 64 }
        ensures step { (t : List ℕ) → IsStep result outside self.depth byte t }
        ensures few { MostOpen (self.depth + 1) result }
    {
        let depth = match byte {
            b'\n' if self.depth == 0 => return ActionStep::Ends,
            b'{' => self.depth + 1,
            b'}' => self.depth.saturating_sub(1),
            _ => self.depth,
        };
        let place = match byte {
            b'"' => ActionPlace::String,
            b'/' => ActionPlace::Slash,
            _ => ActionPlace::Outside,
        };
        ActionStep::Goes(ActionCursor { place, depth })
    }

    /// What the byte does after a slash outside strings and comments.
    fn past_slash(self, byte: u8) -> ActionStep
        requires { self.depth + 1 < 2 ^ 64 }
        ensures step { (t : List ℕ) → IsStep result (code slash) self.depth byte t }
        ensures few { MostOpen (self.depth + 1) result }
    {
        if byte == b'*' {
            self.at(ActionPlace::Block)
        } else if byte == b'/' {
            self.at(ActionPlace::Line)
        } else {
            self.past_outside(byte)
        }
    }

    /// What the byte does.
    fn past(self, byte: u8) -> ActionStep
        requires { self.depth + 1 < 2 ^ 64 }
        ensures step { (t : List ℕ) → IsStep result (place_of self.place) self.depth byte t }
        ensures few { MostOpen (self.depth + 1) result }
    {
        match self.place {
            ActionPlace::Outside => self.past_outside(byte),
            ActionPlace::Slash => self.past_slash(byte),
            ActionPlace::Block => match byte {
                b'*' => self.at(ActionPlace::Star),
                _ => self.at(ActionPlace::Block),
            },
            ActionPlace::Star => match byte {
                b'/' => self.at(ActionPlace::Outside),
                b'*' => self.at(ActionPlace::Star),
                _ => self.at(ActionPlace::Block),
            },
            ActionPlace::Line => match byte {
                b'\n' if self.depth == 0 => ActionStep::Ends,
                b'\n' => self.at(ActionPlace::Outside),
                _ => self.at(ActionPlace::Line),
            },
            ActionPlace::String => match byte {
                b'\n' => ActionStep::Refused,
                b'"' => self.at(ActionPlace::Outside),
                b'\\' => self.at(ActionPlace::Escaped),
                _ => self.at(ActionPlace::String),
            },
            ActionPlace::Escaped => match byte {
                b'\n' => ActionStep::Refused,
                _ => self.at(ActionPlace::String),
            },
        }
    }

    /// The step to a place, where as many braces are open.
    fn at(self, place: ActionPlace) -> ActionStep
        ensures { result ≡ ActionStep.Goes (record { place = place; depth = self.depth }) }
    {
        ActionStep::Goes(ActionCursor {
            place,
            depth: self.depth,
        })
    }

    /// Whether an action may end here with the text.
    fn is_closed(self) -> bool
        ensures { action_in (place_of self.place) self.depth [] ≡ (if result then Some ([], []) else None) }
    {
        self.depth == 0
            && matches!(
                self.place,
                ActionPlace::Outside | ActionPlace::Slash | ActionPlace::Line
            )
    }
}

/// The text of an action, up to the first newline outside strings, comments and braces or to the end of the text, and
/// what follows that newline. None where a string, a comment or a brace is left open.
pub(crate) fn split_action(text: &[u8]) -> Option<(&[u8], &[u8])>
    ensures { option_map (λ x. (x.0.now, x.1.now)) result ≡ action_at text.now }
{
    let mut progress = ActionCursor {
        place: ActionPlace::Outside,
        depth: 0,
    };
    for (i, byte) in text.iter().enumerate() {
        match progress.past(*byte) {
            ActionStep::Goes(next) => progress = next,
            ActionStep::Ends => {
                let (front, rest) = text.split_at(i);
                return Some((front, skip_first(rest)));
            }
            ActionStep::Refused => return None,
        }
    }
    if progress.is_closed() {
        Some(text.split_at(text.len()))
    } else {
        None
    }
}

/// Whether the action is `|` and blanks alone, which stands for the action of the next rule.
pub(crate) fn is_bar(action: &[u8]) -> bool
    ensures { result ≡ (begins (codes "|") action.now && is_all_blank (drop 1 action.now)) }
{
    action.starts_with(b"|") && is_all_blank(skip_first(action))
}

//! Numbers of lines.
ghost use Rattle.std.specs.Prelude.{◌≡◌, ◌≤◌, ◌-◌, length, take};
ghost use Rattle.lexspec_lines.specs.Lines.{newlines};
ghost use Rattle.lex_semantics.specs.Limits.{max_file_bytes};

/// How many newlines stand before the rest of the text.
pub fn newlines_before(text: &[u8], rest: &[u8]) -> u32
    requires { length text.now ≤ max_file_bytes }
    ensures { result ≡ newlines (take (length text.now - length rest.now) text.now) }
{
    let (front, _) = text.split_at(text.len().saturating_sub(rest.len()));
    front.iter().filter(|byte| **byte == b'\n').count() as u32
}

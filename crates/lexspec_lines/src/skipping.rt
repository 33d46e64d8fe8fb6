//! Blocks and comments, which are skipped. (flex, Format of the Input File.)
ghost use Rattle.std.specs.Prelude.{◌≡◌, suc, ◌≤◌, length, option_map, IfSome};
ghost use Rattle.lexspec_lines.specs.Lines.{after_block, after_comment};

use crate::lines::split_line;

/// What follows a block, after its first line: the text after the next line that begins with `%}`.
pub fn skip_block(text: &[u8]) -> Option<&[u8]>
    ensures after { option_map (λ x. x.now) result ≡ after_block (suc (length text.now)) text.now }
    ensures shorter { IfSome result (λ x. length x.now ≤ length text.now) }
{
    let mut rest = text;
    while !rest.is_empty() {
        let (line, after) = split_line(rest);
        if line.starts_with(b"%}") {
            return Some(after);
        }
        rest = after;
    }
    None
}

/// What follows a comment, after its `/*`: the text after the line that has the next `*/`.
pub(crate) fn skip_comment(text: &[u8]) -> Option<&[u8]>
    ensures after { option_map (λ x. x.now) result ≡ after_comment text.now }
    ensures shorter { IfSome result (λ x. length x.now ≤ length text.now) }
{
    let mut rest = text;
    while let Some((first, after)) = rest.split_first() {
        if *first == b'*' && after.starts_with(b"/") {
            return Some(split_line(after).1);
        }
        rest = after;
    }
    None
}

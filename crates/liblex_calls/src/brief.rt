//! Tokens that follow on each other, kept in few bytes each.
ghost use Rattle.std.specs.Prelude.{◌≡◌, ◌+◌, ◌^◌, ◌<◌, ◌≤◌, ◌++◌, length, take, drop, IfSome, OnOk};
ghost use Rattle.lexscan.specs.Pulls.{whole_token};
ghost use Rattle.lexscan.specs.Series.{end_of};
ghost use Rattle.liblex_calls.specs.Listing.{text_token};
ghost use Rattle.liblex_calls.specs.Brief.{long_token, long_tokens};

use crate::listing::{TextToken, rule_number};
use lexscan::{BriefToken, PulledToken};
use std::alloc::AllocError;

/// How long the text of a token may be that is kept so.
const LONGEST: usize = 65_535;

/// The token in few bytes, where it is not too long for that.
pub(crate) fn brief_of(token: PulledToken) -> Option<BriefToken>
    ensures { IfSome result (λ b. long_token token.start b ≡ text_token (whole_token token)) }
{
    if LONGEST < token.length {
        return None;
    }
    Some(BriefToken {
        rule: rule_number(token.rule),
        length: token.length as u16,
        condition: token.condition,
    })
}

/// The token that begins there.
fn long_token(start: usize, token: &BriefToken) -> TextToken
    requires { start + token.now.length < 2 ^ 64 }
    ensures { result ≡ long_token start token.now }
{
    TextToken {
        start,
        end: start + usize::from(token.length),
        rule: token.rule,
        condition: u32::from(token.condition),
    }
}

/// Where the last of these tokens ends, of which the first begins there.
pub(crate) fn end_of(start: usize, tokens: &[BriefToken]) -> usize
    requires { end_of start tokens.now < 2 ^ 64 }
    ensures { result ≡ end_of start tokens.now }
{
    let mut end = start;
    for i in 0..tokens.len() {
        end += usize::from(tokens[i].length);
    }
    end
}

/// Appends tokens to a list, of which the first begins there. Where memory runs out some may be appended.
pub(crate) fn append_long(
    list: &mut Vec<TextToken>,
    start: usize,
    tokens: &[BriefToken],
) -> Result<(), AllocError>
    requires { end_of start tokens.now < 2 ^ 64 }
    ensures appended { OnOk result (list.new.items ≡ list.old.items ++ long_tokens start tokens.now) }
    ensures few { length list.new.items ≤ length list.old.items + length tokens.now }
{
    let mut next = start;
    for i in 0..tokens.len() {
        let long = long_token(next, &tokens[i]);
        next = long.end;
        list.push(long)?;
    }
    Ok(())
}

/// Puts the tokens at the front of a buffer, as many as it has room for. The first of them begins at 0.
pub(crate) fn draw_out(tokens: &[BriefToken], buffer: &mut [TextToken])
    requires { end_of 0 tokens.now < 2 ^ 64 }
    ensures { buffer.new ≡ take (length buffer.old) (long_tokens 0 tokens.now) ++ drop (length tokens.now) buffer.old }
{
    let mut start = 0;
    let room = tokens.len().min(buffer.len());
    for i in 0..room {
        let token = long_token(start, &tokens[i]);
        buffer[i] = token;
        start = token.end;
    }
}

/// Puts tokens into a buffer, from a place on.
pub(crate) fn put_behind(tokens: &[TextToken], buffer: &mut [TextToken], first: usize)
    requires { first + length tokens.now ≤ length buffer.old }
    ensures front { take first buffer.new ≡ take first buffer.old }
    ensures tokens { take (length tokens.now) (drop first buffer.new) ≡ tokens.now }
    ensures rest { drop (first + length tokens.now) buffer.new ≡ drop (first + length tokens.now) buffer.old }
{
    buffer[first..first + tokens.len()].copy_from_slice(tokens);
}

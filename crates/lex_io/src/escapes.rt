//! Bytes that cannot be printed.
ghost use Rattle.std.specs.Prelude.{◌≡◌};
ghost use Rattle.lex_io.specs.Octal.{octal};

/// What stands for a byte that cannot be printed: a backslash and three octal digits.
pub fn octal(byte: u8) -> [u8; 4]
    ensures { result ≡ octal byte }
{
    [
        b'\\',
        b'0' + byte / 64,
        b'0' + byte / 8 % 8,
        b'0' + byte % 8,
    ]
}

//! In which order the bytes are tried of which an input is made.
ghost use Rattle.std.specs.Prelude.{◌≡◌, ◌<◌};
ghost use Rattle.lexlook_suites.specs.Orders.{byte_at};

/// The byte that comes as this one, from 0 on. Small letters come first, and then others that are printed.
pub(crate) fn byte_at(rank: u32) -> u8
    requires { rank < 256 }
    ensures { result ≡ byte_at rank }
{
    if rank < 26 {
        return (rank + 97) as u8;
    }
    if rank < 91 {
        return (rank + 6) as u8;
    }
    if rank < 95 {
        return (rank + 32) as u8;
    }
    if rank < 118 {
        return (rank - 86) as u8;
    }
    if rank < 247 {
        return (rank + 9) as u8;
    }
    (rank - 247) as u8
}

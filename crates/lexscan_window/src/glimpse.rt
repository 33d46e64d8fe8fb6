//! A copy of the bytes that a glance looks at.
ghost use Rattle.std.specs.Prelude.{◌≡◌, length};

use std::simd::Simd;

/// Makes the one slice the other. For 64 bytes, as many as a glance mostly looks at, nothing is called.
#[inline(always)]
pub fn copy_shown(place: &mut [u8], bytes: &[u8])
    requires { length place.old ≡ length bytes.now }
    ensures { place.new ≡ bytes.now }
{
    if bytes.len() == 64 {
        Simd::<u8, 64>::from_slice(bytes).copy_to_slice(place);
    } else {
        copy_others(place, bytes);
    }
}

/// Makes the one slice the other, of any length.
#[inline(never)]
fn copy_others(place: &mut [u8], bytes: &[u8])
    requires { length place.old ≡ length bytes.now }
    ensures { place.new ≡ bytes.now }
{
    place.copy_from_slice(bytes);
}

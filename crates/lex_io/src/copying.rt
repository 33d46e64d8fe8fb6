//! Copies of texts, most of them short.
ghost use Rattle.std.specs.Prelude.{◌≡◌, ◌+◌, ◌<◌, ◌≤◌, length, take};

use std::simd::Simd;

/// Makes the one slice the other. A short one is two copies of a fixed size, which overlap.
#[inline(always)]
pub fn copy_to(place: &mut [u8], bytes: &[u8])
    requires { length place.old ≡ length bytes.now }
    ensures { place.new ≡ bytes.now }
{
    let len = bytes.len();
    // The shortest come first: most texts are such.
    if len < 4 {
        copy_least(place, bytes);
    } else if len < 8 {
        copy_ends::<4>(place, bytes);
    } else if len < 16 {
        copy_ends::<8>(place, bytes);
    } else if len <= 32 {
        copy_ends::<16>(place, bytes);
    } else {
        copy_many(place, bytes);
    }
}

/// The same for fewer than four bytes.
#[inline(always)]
fn copy_least(place: &mut [u8], bytes: &[u8])
    requires len { length place.old ≡ length bytes.now }
    requires few { length bytes.now < 4 }
    ensures { place.new ≡ bytes.now }
{
    if 2 <= bytes.len() {
        copy_ends::<2>(place, bytes);
    } else if bytes.len() == 1 {
        place[0] = bytes[0];
    }
}

/// Copies the first `N` bytes and the last `N`. Between them there is nothing.
#[inline(always)]
fn copy_ends<const N: usize>(place: &mut [u8], bytes: &[u8])
    requires len { length place.old ≡ length bytes.now }
    requires covers { (N ≤ length bytes.now) × (length bytes.now ≤ N + N) }
    ensures { place.new ≡ bytes.now }
{
    let last = bytes.len() - N;
    Simd::<u8, N>::from_slice(bytes).copy_to_slice(place);
    Simd::<u8, N>::from_slice(&bytes[last..]).copy_to_slice(&mut place[last..]);
}

/// Makes the one slice the other, all at once.
#[inline(never)]
fn copy_many(place: &mut [u8], bytes: &[u8])
    requires { length place.old ≡ length bytes.now }
    ensures { place.new ≡ bytes.now }
{
    place.copy_from_slice(bytes);
}

//! Which condition of one scanner is which of another: by name.
ghost use Rattle.std.specs.Prelude.{◌≡◌, ◌<◌, ◌≤◌, ℕ, List, true, false, Some, None};
ghost use Rattle.std.specs.Prelude.{length, map, slice_get, IfOk, IfSome};
ghost use Rattle.lexlook_calls.specs.Naming.{AreNamed};

use std::alloc::{AllocError, Global};

/// Whether the names are the same.
fn is_same_name(name: &[u8], other: &[u8]) -> bool
    ensures yes { result ≡ true → name.now ≡ other.now }
    ensures no { result ≡ false → name.now ≡ other.now → ⊥ }
{
    name == other
}

/// The number that a name has among others.
fn number_of(name: &[u8], names: &[&[u8]]) -> Option<u8>
    requires { length names.now ≤ 255 }
    ensures some { IfSome result (λ n. slice_get (map (λ x. x.now) names.now) n ≡ Some name.now) }
    ensures none { result ≡ None → (n : ℕ) → slice_get (map (λ x. x.now) names.now) n ≡ Some name.now → ⊥ }
{
    for number in 0..names.len() {
        if is_same_name(names[number], name) {
            return Some(number as u8);
        }
    }
    None
}

/// The numbers that names have among others, if these are the same names.
pub(crate) fn order_of(
    alloc: Global,
    names: &[&[u8]],
    others: &[&[u8]],
) -> Result<Option<Vec<u8>>, AllocError>
    requires { length others.now ≤ 255 }
    ensures some { IfOk result (λ found. IfSome found (λ order.
        AreNamed (map (λ x. x.now) names.now) (map (λ x. x.now) others.now) order.items)) }
    ensures none { IfOk result (λ found. found ≡ None
        → (order : List ℕ) → AreNamed (map (λ x. x.now) names.now) (map (λ x. x.now) others.now) order → ⊥) }
{
    if names.len() != others.len() {
        return Ok(None);
    }
    let mut order = Vec::new(alloc);
    for name in names {
        match number_of(*name, others) {
            None => return Ok(None),
            Some(number) => order.push(number)?,
        }
    }
    Ok(Some(order))
}

//! Bytes that no state tells apart.
ghost use Rattle.std.specs.Prelude.{◌≡◌, ℕ, ◌*◌, ◌<◌, ◌≤◌, true, length, slice_index, IfOk};
ghost use Rattle.lexauto_dfa.specs.Alike.{AreLeads, IsSplit, moves};

use std::alloc::{AllocError, Global};

/// The first byte with the lead and the target of this one.
fn earliest(lead: &[u8], row: &[u32], byte: usize) -> u8
    requires leads { length lead.now ≡ 256 }
    requires targets { length row.now ≡ 256 }
    requires byte { byte < 256 }
    ensures { IsSplit lead.now row.now byte result }
{
    for c in 0..byte {
        if lead[c] == lead[byte] && row[c] == row[byte] {
            return c as u8;
        }
    }
    byte as u8
}

/// Whether a row has the same target for each byte and its lead.
fn keeps_classes(row: &[u32], lead: &[u8]) -> bool
    requires leads { length lead.now ≡ 256 }
    requires targets { length row.now ≡ 256 }
    ensures { result ≡ true → (b : ℕ) → b < 256 → slice_index row.now (slice_index lead.now b) ≡ slice_index row.now b }
{
    for (byte, first) in lead.iter().enumerate() {
        if row[*first as usize] != row[byte] {
            return false;
        }
    }
    true
}

/// Splits classes by the row of one more state.
fn split(row: &[u32], lead: &mut [u8])
    requires leads { length lead.old ≡ 256 }
    requires targets { length row.now ≡ 256 }
    requires heads { (b : ℕ) → b < 256 → (slice_index lead.old b ≤ b)
        × (slice_index lead.old (slice_index lead.old b) ≡ slice_index lead.old b) }
    ensures { (b : ℕ) → b < 256 → IsSplit lead.old row.now b (slice_index lead.new b) }
{
    if keeps_classes(row, lead) {
        return;
    }
    for i in 0..256usize {
        let byte = 255 - i;
        if row[byte] != row[lead[byte] as usize] {
            lead[byte] = earliest(lead, row, byte);
        }
    }
}

/// Whether each byte is alone in its class. One that is not is mostly one of the last.
fn are_alone(lead: &[u8]) -> bool
    requires { length lead.now ≡ 256 }
    ensures { result ≡ true → (b : ℕ) → b < 256 → slice_index lead.now b ≡ b }
{
    for i in 0..256usize {
        let byte = 255 - i;
        if lead[byte] as usize != byte {
            return false;
        }
    }
    true
}

/// Splits classes by the rows of all states.
fn split_all(next: &[u32], states: usize, lead: &mut [u8])
    requires rows { length next.now ≡ 256 * states }
    requires leads { length lead.old ≡ 256 }
    requires alike { AreLeads 0 (moves next.now) lead.old }
    ensures { AreLeads states (moves next.now) lead.new }
{
    for state in 0..states {
        split(&next[256 * state..256 * state + 256], lead);
        if are_alone(lead) {
            return;
        }
    }
}

/// For each byte the first one by which all states go alike. `next` has 256 targets a state.
pub fn first_bytes(alloc: Global, next: &[u32], states: usize) -> Result<Vec<u8>, AllocError>
    requires { length next.now ≡ 256 * states }
    ensures len { IfOk result (λ v. length v.items ≡ 256) }
    ensures leads { IfOk result (λ v. AreLeads states (moves next.now) v.items) }
{
    let mut lead = vec![in alloc; 0u8; 256]?;
    split_all(next, states, &mut lead);
    Ok(lead)
}

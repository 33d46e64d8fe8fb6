//! Which of the rules that a text fits take it.
ghost use Rattle.std.specs.Prelude.{◌≡◌, ◌<◌, ℕ, None, true, false, length, IfSome};
ghost use Rattle.lex_semantics.specs.Text.{Among, flag};
ghost use Rattle.lexlook_specs.specs.Placing.{behind, takers};

/// Whether the rule is one of these.
pub(crate) fn has(rules: &[u32], rule: u32) -> bool
    ensures yes { result ≡ true → Among rules.now rule }
    ensures no { result ≡ false → Among rules.now rule → ⊥ }
{
    rules.contains(&rule)
}

/// The rules that take a text which fits these: up to the first that has no REJECT.
pub(crate) fn taken<'a>(rejects: &[bool], rules: &'a [u32]) -> &'a [u32]
    requires { (i : ℕ) → Among rules.now i → i < length rejects.now }
    ensures { result.now ≡ takers rejects.now rules.now }
{
    for place in 0..rules.len() {
        if !rejects[rules[place] as usize] {
            return &rules[..place + 1];
        }
    }
    rules
}

/// The rule that takes a text which fits these, and does not give it up.
pub(crate) fn taker(rejects: &[bool], rules: &[u32]) -> Option<u32>
    requires { (i : ℕ) → Among rules.now i → i < length rejects.now }
    ensures some { IfSome result (λ j. Among (takers rejects.now rules.now) j × (flag rejects.now j ≡ false)) }
    ensures only { (j : ℕ) → Among (takers rejects.now rules.now) j → flag rejects.now j ≡ false → result ≡ Some j }
{
    for rule in rules {
        if !rejects[*rule as usize] {
            return Some(*rule);
        }
    }
    None
}

/// Whether each of these rules gives a text up.
pub(crate) fn is_given_up(rejects: &[bool], rules: &[u32]) -> bool
    requires { (i : ℕ) → Among rules.now i → i < length rejects.now }
    ensures yes { result ≡ true → (i : ℕ) → Among rules.now i → flag rejects.now i ≡ false → ⊥ }
    ensures no { result ≡ false → ((i : ℕ) → Among rules.now i → flag rejects.now i ≡ false → ⊥) → ⊥ }
{
    taker(rejects, rules).is_none()
}

/// Of these rules, of which each fits a text, those behind `rule`, if it takes the text.
#[tactic(auto, using(crate::proofs::Behind::walk_found, crate::proofs::Behind::walk_kept, crate::proofs::Behind::walk_further, crate::proofs::Behind::walk_end))]
pub(crate) fn behind<'a>(rejects: &[bool], rules: &'a [u32], rule: u32) -> &'a [u32]
    requires { (i : ℕ) → Among rules.now i → i < length rejects.now }
    ensures { result.now ≡ behind rejects.now rules.now rule }
{
    for place in 0..rules.len() {
        if rules[place] == rule {
            return &rules[place + 1..];
        }
        if !rejects[rules[place] as usize] {
            return &rules[..0];
        }
    }
    &rules[..0]
}

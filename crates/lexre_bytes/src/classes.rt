//! The character classes of the POSIX locale, on bytes. (POSIX, Base Definitions, LC_CTYPE.)
ghost use Rattle.std.specs.Prelude.{◌≡◌, option_map};
ghost use Rattle.lex_semantics.specs.ByteSets.{same_bytes, named_set, other_case, set_of};
ghost use Rattle.lexre_bytes.specs.Classes.{test_of};

/// A character class.
#[derive(Clone, Copy)]
pub enum Class {
    Alpha,
    Digit,
    Alnum,
    Upper,
    Lower,
    Space,
    Blank,
    Cntrl,
    Graph,
    Print,
    Punct,
    Xdigit,
}

/// Whether a name is this word.
fn same_bytes(name: &[u8], word: &str) -> bool
    ensures { result ≡ same_bytes name.now word.now }
{
    name == word.as_bytes()
}

impl Class {
    /// The class of this name, where there is one.
    #[tactic(auto, unfolding(lex_semantics::specs::ByteSets::named_set, lex_semantics::specs::ByteSets::is_upper, lex_semantics::specs::ByteSets::is_lower, lex_semantics::specs::ByteSets::is_space, lex_semantics::specs::ByteSets::is_cntrl, lex_semantics::specs::ByteSets::is_graph, lex_semantics::specs::ByteSets::is_print, lex_semantics::specs::ByteSets::is_punct))]
    pub fn named(name: &[u8]) -> Option<Class>
        ensures { named_set name.now ≡ option_map (λ c. set_of (test_of c)) result }
    {
        if same_bytes(name, "alpha") {
            Some(Class::Alpha)
        } else if same_bytes(name, "digit") {
            Some(Class::Digit)
        } else if same_bytes(name, "alnum") {
            Some(Class::Alnum)
        } else if same_bytes(name, "upper") {
            Some(Class::Upper)
        } else if same_bytes(name, "lower") {
            Some(Class::Lower)
        } else if same_bytes(name, "space") {
            Some(Class::Space)
        } else if same_bytes(name, "blank") {
            Some(Class::Blank)
        } else if same_bytes(name, "cntrl") {
            Some(Class::Cntrl)
        } else if same_bytes(name, "graph") {
            Some(Class::Graph)
        } else if same_bytes(name, "print") {
            Some(Class::Print)
        } else if same_bytes(name, "punct") {
            Some(Class::Punct)
        } else if same_bytes(name, "xdigit") {
            Some(Class::Xdigit)
        } else {
            None
        }
    }

    /// Whether the byte is in the class.
    #[tactic(auto, unfolding(lex_semantics::specs::ByteSets::is_upper, lex_semantics::specs::ByteSets::is_lower, lex_semantics::specs::ByteSets::is_alpha, lex_semantics::specs::ByteSets::is_digit, lex_semantics::specs::ByteSets::is_alnum, lex_semantics::specs::ByteSets::is_space, lex_semantics::specs::ByteSets::is_blank, lex_semantics::specs::ByteSets::is_cntrl, lex_semantics::specs::ByteSets::is_graph, lex_semantics::specs::ByteSets::is_print, lex_semantics::specs::ByteSets::is_punct, lex_semantics::specs::ByteSets::is_xdigit))]
    pub fn contains(self, byte: u8) -> bool
        ensures { result ≡ test_of self byte }
    {
        match self {
            Class::Alpha => matches!(byte, b'A'..=b'Z' | b'a'..=b'z'),
            Class::Digit => matches!(byte, b'0'..=b'9'),
            Class::Alnum => matches!(byte, b'A'..=b'Z' | b'a'..=b'z' | b'0'..=b'9'),
            Class::Upper => matches!(byte, b'A'..=b'Z'),
            Class::Lower => matches!(byte, b'a'..=b'z'),
            Class::Space => matches!(byte, b'\t'..=b'\r' | b' '),
            Class::Blank => matches!(byte, b'\t' | b' '),
            Class::Cntrl => matches!(byte, 0..=31 | 127),
            Class::Graph => matches!(byte, b'!'..=b'~'),
            Class::Print => matches!(byte, b' '..=b'~'),
            Class::Punct => {
                matches!(byte, b'!'..=b'~')
                    && !matches!(byte, b'A'..=b'Z' | b'a'..=b'z' | b'0'..=b'9')
            }
            Class::Xdigit => matches!(byte, b'0'..=b'9' | b'A'..=b'F' | b'a'..=b'f'),
        }
    }
}

/// The letter in the other case, and any other byte itself.
#[tactic(auto, unfolding(lex_semantics::specs::ByteSets::other_case))]
pub(crate) fn other_case(byte: u8) -> u8
    ensures { result ≡ other_case byte }
{
    match byte {
        b'A'..=b'Z' => byte + 32,
        b'a'..=b'z' => byte - 32,
        _ => byte,
    }
}

//! What rules do, and what is done at the end of the input.
ghost use Rattle.std.specs.Prelude.{◌≡◌, map};
ghost use Rattle.lex_semantics.specs.Spec.{is_reject, has_reject};
ghost use Rattle.lex_semantics.specs.Legal.{is_yyless, is_yymore, ends_action};
ghost use Rattle.lex_machine.specs.Literals.{literal_bytes};
ghost use Rattle.lex_machine.specs.Quiets.{only_rejects};
ghost use Rattle.lex_machine.specs.Views.{statement_of};

/// A statement of an action in normal form. (POSIX and flex, Actions in lex.)
#[derive(Drop)]
pub enum Statement {
    /// Writes the text.
    Echo,
    /// Writes these bytes, 1 to 4,096 of them.
    Print(Vec<u8>),
    /// Sets the start condition of the next match, by its number.
    Begin(u8),
    /// The next text is appended to this one: yymore.
    More,
    /// Keeps this many bytes of the text, 1 to 65,535, and returns the rest: yyless.
    Less(u16),
    /// Goes on to the next best match.
    Reject,
    /// Ends the scan with this status, 0 to 63: yyterminate, exit.
    End(u8),
    /// Puts the condition of the next match on the stack, and this one, by its number, in its place: yy_push_state.
    Push(u8),
    /// Takes the condition of the next match from the stack: yy_pop_state.
    Pop,
}

impl Statement {
    /// Whether it is REJECT.
    pub fn is_reject(&self) -> bool
        ensures { result ≡ is_reject (statement_of self.now) }
    {
        matches!(self, Statement::Reject)
    }

    /// Whether it is yyless.
    pub fn is_yyless(&self) -> bool
        ensures { result ≡ is_yyless (statement_of self.now) }
    {
        matches!(self, Statement::Less(_))
    }

    /// Whether it is yymore.
    pub fn is_yymore(&self) -> bool
        ensures { result ≡ is_yymore (statement_of self.now) }
    {
        matches!(self, Statement::More)
    }

    /// Whether it is REJECT or ends the scan.
    pub fn ends_action(&self) -> bool
        ensures { result ≡ ends_action (statement_of self.now) }
    {
        matches!(self, Statement::Reject | Statement::End(_))
    }

    /// How many bytes it writes beside the text.
    pub fn literal_bytes(&self) -> usize
        ensures { result ≡ literal_bytes (statement_of self.now) }
    {
        match self {
            Statement::Print(bytes) => bytes.len(),
            _ => 0,
        }
    }
}

/// Whether one of the statements is REJECT.
pub fn has_reject(statements: &[Statement]) -> bool
    ensures { result ≡ has_reject (map statement_of statements.now) }
{
    for statement in statements {
        if statement.is_reject() {
            return true;
        }
    }
    false
}

/// Whether an action of these statements does nothing but REJECT.
pub fn only_rejects(statements: &[Statement]) -> bool
    ensures { result ≡ only_rejects (map statement_of statements.now) }
{
    matches!(statements.first(), Some(Statement::Reject))
}

/// What is done at the end of the input: bytes that are written, and the scan's status, 0 to 63.
/// (flex, End-of-File Rules.)
#[derive(Drop)]
pub struct EndAction {
    pub print: Vec<u8>,
    pub status: u8,
}

//! The limits that more than one crate keeps to, in code. Contracts name them as `specs/Limits` does.
ghost use Rattle.std.specs.Prelude.{◌≡◌};
ghost use Rattle.lex_semantics.specs.Limits.{
  max_classes,
  max_conditions,
  max_file_bytes,
  max_fixed_length,
  max_kept,
  max_literal_bytes,
  max_positions,
  max_rules,
  max_slots,
  max_stack,
  max_statements,
  max_states,
  max_status,
};

/// How many conditions the stack may hold.
pub const MAX_STACK: usize = 255;

/// How long the words of a side may be by which a match is cut.
pub const MAX_FIXED_LENGTH: u32 = 65_535;

/// How many bytes the literals of an action may have together, and the end of a condition.
pub const MAX_LITERAL_BYTES: usize = 4_096;

/// How many bytes yyless may keep.
pub const MAX_KEPT: u32 = 65_535;

/// The greatest status of a scan.
pub const MAX_STATUS: u32 = 63;

/// How many conditions there may be, INITIAL among them.
pub const MAX_CONDITIONS: usize = 255;

/// How many rules there may be; `<<EOF>>` rules do not count.
pub const MAX_RULES: usize = 4_096;

/// How many statements an action may have.
pub const MAX_STATEMENTS: usize = 256;

/// How many bytes a file may have.
pub const MAX_FILE_BYTES: usize = 1_048_576;

/// How many states an automaton may have.
pub const MAX_STATES: u32 = 8_192;

/// How many positions the patterns of a specification may have together.
pub const MAX_POSITIONS: u32 = 16_384;

/// How many classes of bytes a table may have.
pub const MAX_CLASSES: u32 = 256;

/// How many slots a table may have.
pub const MAX_SLOTS: u32 = 2_097_152;

/// The limits of contracts are those of code.
pub fn limits_agree()
    ensures stack { MAX_STACK ≡ max_stack }
    ensures fixed_length { MAX_FIXED_LENGTH ≡ max_fixed_length }
    ensures literal_bytes { MAX_LITERAL_BYTES ≡ max_literal_bytes }
    ensures kept { MAX_KEPT ≡ max_kept }
    ensures status { MAX_STATUS ≡ max_status }
    ensures conditions { MAX_CONDITIONS ≡ max_conditions }
    ensures rules { MAX_RULES ≡ max_rules }
    ensures statements { MAX_STATEMENTS ≡ max_statements }
    ensures file_bytes { MAX_FILE_BYTES ≡ max_file_bytes }
    ensures states { MAX_STATES ≡ max_states }
    ensures positions { MAX_POSITIONS ≡ max_positions }
    ensures classes { MAX_CLASSES ≡ max_classes }
    ensures slots { MAX_SLOTS ≡ max_slots }
{}

// Why a routine refuses. DataInvalid and FeatureUnsupported are the Rust's two kinds (src/error.rs); the others are document 01's own, and 02's.
ghost use Rattle.std.specs.Prelude.{◌≡◌};
ghost use Rattle.values.specs.Outcomes.{error_number};

#[derive(Clone, Copy, PartialEq, Eq)]
pub enum ErrorKind {
    // The sheet or the value is against the rules of its format.
    Malformed = 3,
    // A String is not UTF-8.
    NotUtf8,
    // `result_type` has no answer for the transform and the type.
    NoResultType,
    DataInvalid,
    FeatureUnsupported,
    // The Rust panics or wraps.
    Overflow,
    // A filter's text is outside its grammar, or names a column that is not declared.
    OutsideGrammar,
    // A filter has too many bytes, leaves or open brackets.
    TooLarge,
    // The lowest end of a file's summary is above its highest, or its type is not the sheet's.
    WrongSummary,
    // Two summaries are to be pooled whose types differ.
    DifferentTypes,
}

// The number of the refusal in document 01's table, which 02 goes on with.
impl From<ErrorKind> for u32 {
    ghost from_gives = { λ e n. n ≡ error_number e };

    fn from(e: ErrorKind) -> u32 {
        e as u32
    }
}

// What a picker asks of a leaf.

// Inclusive: which partition values may have a row that meets the leaf. Strict: which have such rows only. Older: which have such rows only, in files whose
// writers may have filed a row with a negative partition value under the next one.
#[derive(Clone, Copy, PartialEq, Eq)]
pub enum Question {
    Inclusive,
    Strict,
    Older,
}

// Where the writer stands between two rows.
use crate::span::Span;
use crate::told::Told;

// What it has told, and the pixels of a row group that are not written yet.
#[derive(Clone, Copy, Debug, Default, PartialEq, Eq)]
pub(crate) struct Standing {
    pub told: Told,
    pub span: Span,
}

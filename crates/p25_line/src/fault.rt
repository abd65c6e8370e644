//! The reasons for refusing a line, in their order.

use thiserror::Error;

/// The reason for refusing a line, in the order in which the reasons are tested. It is displayed as one word.
#[derive(Clone, Copy, Debug, PartialEq, Eq, Error)]
pub enum LineFault {
    /// The line has more than 8,192 octets.
    #[error("long")]
    Long,
    /// The line is not one or more words of octets 21 to 7E hex with single spaces between them.
    #[error("form")]
    Form,
    /// The first word is not the name of any type of line.
    #[error("kind")]
    Kind,
    /// The number of words does not fit the type of line, or a word does not begin with its key.
    #[error("key")]
    Key,
    /// A value does not have its form, or values do not fit each other.
    #[error("value")]
    Value,
}

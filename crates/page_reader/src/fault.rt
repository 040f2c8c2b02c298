//! Why something is no page.

use js_core::Failure;

/// The tokens have no reading as a page.
#[derive(Clone, Copy, PartialEq, Eq)]
pub struct NotPage;

/// Why tokens are no page: they have no reading, or memory ran out.
pub type TreeFault = Failure<NotPage>;

/// What is wrong with bytes that are no page.
#[derive(Clone, Copy, PartialEq, Eq)]
pub enum PageError {
    /// They are no UTF-8.
    NotUtf8,
    /// They are UTF-8 that is no page.
    NotPage,
}

/// Why bytes are no page: what is wrong with them, or memory ran out.
pub type PageFault = Failure<PageError>;

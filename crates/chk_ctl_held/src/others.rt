//! The stores beside one of them.

use crate::stores::Store;

/// The stores that stand before a store, and those behind it.
#[derive(Clone, Copy)]
pub(crate) struct Others<'a> {
    pub before: &'a [Store],
    pub behind: &'a [Store],
}

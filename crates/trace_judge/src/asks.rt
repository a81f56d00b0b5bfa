//! Questions that were asked, and those that were answered.

use crate::event::Moment;
use hickory_proto_core::Query;

/// A question, and the moment at which it was asked, or answered.
#[derive(Debug, Drop)]
pub struct Ask {
    pub moment: Moment,
    pub query: Query,
}

//! The example of ldm_feedtype.

use ldm_feedtype::{FeedFault, read_feed};
use ldm_types::Feed;

/// Whether a text asks for one of these feedtypes.
pub fn asks_for(text: &[u8], feed: Feed) -> Result<bool, FeedFault> {
    Ok(read_feed(text)?.meets(feed))
}

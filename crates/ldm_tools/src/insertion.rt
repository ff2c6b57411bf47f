//! What is to be inserted, and where.
use ldm_types::Feed;

/// Files that are to be put into the queue of a node.
#[derive(Clone, Copy, Debug)]
pub struct Insertion<'a> {
    /// The host of the node: a name or an address.
    pub host: &'a [u8],
    /// Its port.
    pub port: u16,
    /// The feedtypes of the products.
    pub feed: Feed,
    /// The ident of all products, at most 255 bytes. Where none is given, the ident of each is the path of its file.
    pub ident: Option<&'a [u8]>,
    /// The origin of the products, at most 64 bytes.
    pub origin: &'a [u8],
    /// Whether a signature is of the ident, and not of the body.
    pub sign_ident: bool,
    /// The paths of the files, in the order in which they are sent.
    pub files: &'a [&'a str],
}

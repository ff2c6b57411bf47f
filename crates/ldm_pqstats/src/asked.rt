//! What is asked for.

use ldm_class::Class;

/// Whom to ask for which products, and what to do with their totals.
#[derive(Clone, Copy)]
pub struct StatsAsked<'a> {
    /// The host of the node: a name or an address.
    pub host: &'a [u8],
    /// Its port.
    pub port: u16,
    /// The class of the products.
    pub class: &'a Class,
    /// How many products are to be given, 1 at least. Where there is no count, all are.
    pub count: Option<u64>,
    /// How many hours the totals keep: 1 to 8,760.
    pub hours: u32,
    /// Whether the lines of each hour are sent to the node.
    pub send: bool,
}

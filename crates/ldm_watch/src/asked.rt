//! What is asked for.

use crate::NoticeForm;
use ldm_class::Class;

/// Whom to ask for notices of which products, and how their lines are written.
#[derive(Clone, Copy)]
pub struct NoticesAsked<'a> {
    /// The host of the node: a name or an address.
    pub host: &'a [u8],
    /// Its port.
    pub port: u16,
    /// The class of the products.
    pub class: &'a Class,
    /// How many notices are waited for, 1 at least. Where there is no count, all are.
    pub count: Option<u64>,
    /// How the lines are written.
    pub form: NoticeForm,
}

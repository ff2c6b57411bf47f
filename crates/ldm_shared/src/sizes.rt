//! What a shared queue is told when it is made.

/// How large a shared queue is: bytes of the arena, product slots, and passes.
#[derive(Clone, Copy)]
pub struct Sizes {
    pub arena: u64,
    pub slots: u32,
    pub passes: u32,
}

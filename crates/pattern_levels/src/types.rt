// What one level of a pattern tells.

// The step that a pattern came by, with the entry at its last jack.
#[derive(Clone, Copy)]
pub enum Came {
    ByA(u8),
    ByB(u8),
}

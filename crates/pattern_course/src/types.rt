// What one level of a rank tells.

// The step that makes a pattern, and the rank of the shorter pattern that it is made from. (`Came` of `pattern_levels` names a step too, in a crate that this one
// does not need, and has no rank.)
#[derive(Clone, Copy)]
pub enum Origin {
    ByA(u8, u64),
    ByB(u8, u64),
}

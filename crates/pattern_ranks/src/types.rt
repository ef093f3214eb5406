// What one level of a pattern says of its place.

// One level of a pattern's place: what is passed over, and of the shorter pattern its ports and whether its list is read forward.
#[derive(Clone, Copy)]
pub struct Level {
    pub passed: u64,
    pub forward: bool,
    pub ports: u8,
}

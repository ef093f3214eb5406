// What a search down a course tells.

// Where a list goes on: the ports of the lowest open level of a course, 0 if none is open, and whether its shorter list is read forward.
#[derive(Clone, Copy)]
pub struct Open {
    pub ports: u8,
    pub inner: bool,
}

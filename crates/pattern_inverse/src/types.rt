// A pattern as it is taken in, to be taken apart.
ghost use Rattle.std.specs.Prelude.{◌≤◌};
ghost use Rattle.listing.specs.Limits.{most_ports};
ghost use Rattle.listing_course.specs.InPlace.{WithInverse};

use words::limits::LONGEST;

// A working copy of a pattern of so many ports, with its inverse, which has at each port its jack: jack 1 and port 1 first.
#[derive(Drop)]
pub struct Taken {
    pub copy: [u8; LONGEST],
    pub inverse: [u8; LONGEST],
    pub ports: u8,
    pub ghost fits: { ports ≤ most_ports },
    pub ghost arrays: { WithInverse ports copy inverse },
}

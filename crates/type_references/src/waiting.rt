// What waits while an inner type is read: in a lent area, the arguments of the outer types, the innermost last.
ghost use Rattle.std.specs.Prelude.{◌≡◌, ◌≤◌};

// The arguments from a place to an end of the message, and what is left of the depth there. Places among at most 32,768 bytes fit 16 bits, a
// depth of at most 64 fits 8.
#[derive(Clone, Copy)]
pub(crate) struct Waiting {
    pub at: u16,
    pub end: u16,
    pub left: u8,
}

// What stands in an area where nothing waits yet.
pub(crate) const NOTHING_WAITS: Waiting = Waiting {
    at: 0,
    end: 0,
    left: 0,
};

impl Waiting {
    // It requires places and a depth that fit, so that it has no second answer: `arguments_at` shows it from its `NestRoom`.
    pub(crate) fn of(at: usize, end: usize, left: usize) -> Waiting
        requires { (at ≤ 32768) × (end ≤ 32768) × (left ≤ 64) }
        ensures { result ≡ record { at = at; end = end; left = left } }
    {
        // By `as`: Rust has no `From` to fewer bits.
        Waiting {
            at: at as u16,
            end: end as u16,
            left: left as u8,
        }
    }
}

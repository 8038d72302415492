// The type of a field.
ghost use Rattle.std.specs.Prelude.{◌≤◌};

// A field of a head or a record: at which bit of that it begins, counted from 0, and how many bits it has.
#[derive(Clone, Copy)]
pub struct Field {
    pub at: usize,
    pub width: usize,
    ghost narrow: { width ≤ 32 },
}

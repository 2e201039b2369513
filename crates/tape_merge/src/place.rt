ghost use Rattle.std.specs.Prelude.{◌≡◌, ◌↔◌, IsTrue};
ghost use Rattle.tape_merge.specs.Matching.{IsBefore};

/// A step of a link, both by their numbers.
#[derive(Clone, Copy)]
pub struct Place {
    pub link: u32,
    pub step: u64,
}

// Whether the one is before the other, by link and then by step.
pub fn is_before(a: Place, b: Place) -> bool
    ensures { IsTrue result ↔ IsBefore a b }
{
    a.link < b.link || (a.link == b.link && a.step < b.step)
}

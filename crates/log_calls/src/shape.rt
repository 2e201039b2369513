use flex_fields::Text;
use std::marker::Model;

/// A topic of a request, and how many partitions it has there, fewer than 2^32 - 1.
#[derive(Drop)]
pub struct NamedShape {
    pub name: Text,
    pub count: u32,
}

impl Model for NamedShape {
    ghost use Rattle.std.specs.Prelude.{◌+◌, ◌<◌, ◌^◌};
    ghost use Rattle.log_calls.specs.Shapes.{NamedShapeParts};

    ghost Value = { NamedShapeParts };

    ghost view = { λ s. record { name = s.name; count = s.count } };

    ghost invariant = { λ s. s.count + 1 < 2 ^ 32 };
}

// What holds of all fields, whatever the bytes.
ghost use Rattle.std.specs.Prelude.{◌≡◌, ◌≤◌, ℕ, ℤ, List, length, Ok};
ghost use Rattle.flex_fields.specs.Reading.{At, array_len_at, uvarint_at, varint_at, varlong_at, tags_at};
ghost use Rattle.flex_fields.specs.Grammar.{IsBytes, IsUvarint, IsVarint, IsVarlong, IsTags};
ghost use Rattle.flex_fields.specs.Writing.{uvarint_bytes, varint_bytes, varlong_bytes};
ghost use Rattle.flex_fields.specs.Cursors.{no_value};
ghost use Rattle.flex_fields.specs.Laws.{IsReader, LenTakes, LenGives};

/// A number of variable length, and tags, are read exactly where bytes stand for them, whatever
/// follows. Each `Format` carries the same of itself.
pub fn numbers_are_read_where_they_stand()
    ensures uvarint { IsReader IsUvarint uvarint_at }
    ensures varint { IsReader IsVarint varint_at }
    ensures varlong { IsReader IsVarlong varlong_at }
    ensures tags { IsReader (λ bytes _. IsTags bytes) (λ at. no_value (tags_at at)) }
{}

/// A number of elements is read exactly where a number that is one more stands, with at least so
/// many bytes behind it.
pub fn array_lengths_are_read_where_they_stand()
    ensures takes { (at : At) (n : ℕ) (after : At) → IsBytes at.left → array_len_at at ≡ Ok (n, after) → LenTakes at n after }
    ensures gives { LenGives }
{}

/// No spelling of a number is shorter than the one that is written.
pub fn numbers_are_written_shortest()
    ensures uvarint { (n : ℕ) (bytes : List ℕ) → IsBytes bytes → IsUvarint bytes n → length (uvarint_bytes n) ≤ length bytes }
    ensures varint { (z : ℤ) (bytes : List ℕ) → IsBytes bytes → IsVarint bytes z → length (varint_bytes z) ≤ length bytes }
    ensures varlong { (z : ℤ) (bytes : List ℕ) → IsBytes bytes → IsVarlong bytes z → length (varlong_bytes z) ≤ length bytes }
{}

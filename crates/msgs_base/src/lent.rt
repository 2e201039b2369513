// The fields of a structure of several versions, lent to be put as nested pairs.
ghost use Rattle.std.specs.Prelude.{List, [], ℕ, OnOk, OnErr, Option};
ghost use Rattle.flex_fields.specs.Formats.{StartsWith};
ghost use Rattle.flex_fields.specs.Versions.{Field, FieldTells, Tells, WritesEnd, WritesLen, always, between, since, text, ◌▷◌};
ghost use Rattle.flex_fields.specs.declared.version.Version.{Version as VersionParts};
ghost use Rattle.msgs_base.specs.Nullable.{null_array_since, null_text_since};

use flex_fields::{
    Items, NoMemory, Out, Text, Version, Versioned, put_array_at, put_end, put_null_array_at,
    put_where,
};

/// A field that is lent to be written, or such fields one after the other.
pub(crate) trait PutAt: Sized + Drop {
    /// What is written.
    ghost Value: { Type 0 };

    /// What is read where it doesn't stand.
    ghost Absent: { Type 0 };

    /// The field.
    ghost field: { VersionParts → Self → Absent → Field Value };

    /// Of what was lent.
    ghost value: { Self → Value };

    /// Writes it behind what was written before. Where memory runs out, that still stands, and a part of this may
    /// follow it.
    fn put_behind(self, version: Version, out: &mut Out) -> Result<(), NoMemory>
        ensures ok { OnOk result ((absent : Absent) → FieldTells (field version self absent) out.old out.new (value self)) }
        ensures stands { StartsWith out.old out.new };
}

/// A field that stands from this version on.
#[derive(Drop)]
pub(crate) struct PutSince<'a, T>(pub u16, pub &'a T);

/// A field that stands from the one version to the other.
#[derive(Drop)]
pub(crate) struct PutBetween<'a, T>(pub u16, pub u16, pub &'a T);

/// A field that can be null from this version on.
#[derive(Drop)]
pub(crate) struct PutNullSince<'a, T>(pub u16, pub &'a Option<T>);

impl<T: Versioned> PutAt for &T {
    ghost Value = { T };

    ghost Absent = { Unit {0} };

    ghost field = { λ v _ _. always (T.schema v) };

    ghost value = { λ x. x.now };

    fn put_behind(self, version: Version, out: &mut Out) -> Result<(), NoMemory> {
        self.put_at(version, out)
    }
}

impl<T: Versioned> PutAt for PutSince<'_, T> {
    ghost Value = { T };

    ghost Absent = { T };

    ghost field = { λ v s absent. since s.0 v absent (T.schema v) };

    ghost value = { λ x. x.1.now };

    fn put_behind(self, version: Version, out: &mut Out) -> Result<(), NoMemory> {
        put_where(version, version.is_since(self.0), self.1, out)
    }
}

impl<T: Versioned> PutAt for PutBetween<'_, T> {
    ghost Value = { T };

    ghost Absent = { T };

    ghost field = { λ v s absent. between s.0 s.1 v absent (T.schema v) };

    ghost value = { λ x. x.2.now };

    fn put_behind(self, version: Version, out: &mut Out) -> Result<(), NoMemory> {
        put_where(version, version.is_between(self.0, self.1), self.2, out)
    }
}

fn put_empty_text(version: Version, out: &mut Out) -> Result<(), NoMemory>
    ensures ok { OnOk result (Tells (text version) out.old out.new []) }
    ensures err { OnErr result (StartsWith out.old out.new) }
{
    if version.flexible {
        return out.put_str("");
    }
    out.put_old_str("")
}

impl PutAt for PutNullSince<'_, Text> {
    ghost Value = { Option (List ℕ) };

    ghost Absent = { Unit {0} };

    ghost field = { λ v s _. always (null_text_since s.0 v) };

    ghost value = { λ x. x.1.now };

    fn put_behind(self, version: Version, out: &mut Out) -> Result<(), NoMemory> {
        if version.is_since(self.0) {
            return self.1.put_at(version, out);
        }
        match self.1 {
            None => put_empty_text(version, out),
            Some(text) => text.put_at(version, out),
        }
    }
}

#[tactic(auto, using(flex_fields::proofs::Told::len_written, flex_fields::proofs::Told::old_len_written))]
fn put_empty_array(version: Version, out: &mut Out) -> Result<(), NoMemory>
    ensures ok { OnOk result (WritesLen version.flexible out.old out.new 0) }
    ensures err { OnErr result (StartsWith out.old out.new) }
{
    if version.flexible {
        return out.put_array_len(0);
    }
    out.put_old_array_len(0)
}

impl<T: Versioned> PutAt for PutNullSince<'_, Items<T>> {
    ghost Value = { Option (List T) };

    ghost Absent = { Unit {0} };

    ghost field = { λ v s _. always (null_array_since s.0 v (T.schema v)) };

    ghost value = { λ x. x.1.now };

    fn put_behind(self, version: Version, out: &mut Out) -> Result<(), NoMemory> {
        if version.is_since(self.0) {
            return put_null_array_at(version, out, self.1);
        }
        match self.1 {
            None => put_empty_array(version, out),
            Some(items) => put_array_at(version, out, items),
        }
    }
}

impl<A: PutAt, B: PutAt> PutAt for (A, B) {
    ghost Value = { A.Value × B.Value };

    ghost Absent = { A.Absent × B.Absent };

    ghost field = { λ v s absent. A.field v s.0 absent.0 ▷ B.field v s.1 absent.1 };

    ghost value = { λ x. (A.value x.0, B.value x.1) };

    fn put_behind(self, version: Version, out: &mut Out) -> Result<(), NoMemory> {
        let (first, second) = self;
        first.put_behind(version, out)?;
        second.put_behind(version, out)
    }
}

/// Writes the fields of a structure, and its end. Where memory runs out, what was written before stands, and a part of
/// this may follow it.
pub(crate) fn put_fields_at<T: PutAt>(
    version: Version,
    out: &mut Out,
    fields: T,
) -> Result<(), NoMemory>
    ensures ok { OnOk result ((between : List ℕ)
        × ((absent : T.Absent) → FieldTells (T.field version fields absent) out.old between (T.value fields))
        × WritesEnd version.flexible between out.new) }
    ensures stands { StartsWith out.old out.new }
{
    fields.put_behind(version, out)?;
    put_end(version, out)
}

/// Fields as nested pairs.
macro_rules! pairs {
    ($last:expr $(,)?) => { $last };
    ($first:expr, $($others:expr),+ $(,)?) => { ($first, pairs!($($others),+)) };
}

pub(crate) use pairs;

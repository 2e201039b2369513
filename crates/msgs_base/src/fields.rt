// The fields of a structure of several versions, which are taken and put as nested pairs.
ghost use Rattle.flex_fields.specs.Cursors.{Moves};
ghost use Rattle.flex_fields.specs.Sound.Parts.{ended_at};
ghost use Rattle.flex_fields.specs.Versions.{Field, always, between, since, ◌▷◌};
ghost use Rattle.flex_fields.specs.declared.version.Version.{Version as VersionParts};
ghost use Rattle.msgs_base.specs.Nullable.{null_array_since, null_text_since};

use crate::lent::pairs;
use flex_fields::{
    Cursor, Items, Text, Version, Versioned, WireFault, take_array_at, take_end,
    take_null_array_at, take_where,
};
use std::alloc::Global;

/// How a field is taken, or such fields one after the other.
pub(crate) trait Take<T>: Drop {
    /// The field.
    ghost field: { VersionParts → Self → Field T };

    /// Takes it from the cursor. After a refusal the cursor may stand anywhere.
    fn take_from(
        self,
        alloc: Global,
        version: Version,
        cursor: &mut Cursor<'_>,
    ) -> Result<T, WireFault>
        ensures { Moves cursor.new result ((field version self).read cursor.old) };
}

/// In each version.
#[derive(Clone, Copy)]
pub(crate) struct Always;

/// From this version on; elsewhere it is this value.
#[derive(Drop)]
pub(crate) struct Since<T>(pub u16, pub T);

/// From the one version to the other; elsewhere it is this value.
#[derive(Drop)]
pub(crate) struct Between<T>(pub u16, pub u16, pub T);

/// In each version; it can be null from this one on.
#[derive(Clone, Copy)]
pub(crate) struct NullSince(pub u16);

impl<T: Versioned> Take<T> for Always {
    ghost field = { λ v _. always (T.schema v) };

    fn take_from(
        self,
        alloc: Global,
        version: Version,
        cursor: &mut Cursor<'_>,
    ) -> Result<T, WireFault> {
        T::take_at(alloc, version, cursor)
    }
}

impl<T: Versioned> Take<T> for Since<T> {
    ghost field = { λ v s. since s.0 v s.1 (T.schema v) };

    fn take_from(
        self,
        alloc: Global,
        version: Version,
        cursor: &mut Cursor<'_>,
    ) -> Result<T, WireFault> {
        take_where(alloc, version, version.is_since(self.0), self.1, cursor)
    }
}

impl<T: Versioned> Take<T> for Between<T> {
    ghost field = { λ v s. between s.0 s.1 v s.2 (T.schema v) };

    fn take_from(
        self,
        alloc: Global,
        version: Version,
        cursor: &mut Cursor<'_>,
    ) -> Result<T, WireFault> {
        take_where(
            alloc,
            version,
            version.is_between(self.0, self.1),
            self.2,
            cursor,
        )
    }
}

impl Take<Option<Text>> for NullSince {
    ghost field = { λ v s. always (null_text_since s.0 v) };

    fn take_from(
        self,
        alloc: Global,
        version: Version,
        cursor: &mut Cursor<'_>,
    ) -> Result<Option<Text>, WireFault> {
        if version.is_since(self.0) {
            return Option::<Text>::take_at(alloc, version, cursor);
        }
        Ok(Some(Text::take_at(alloc, version, cursor)?))
    }
}

impl<T: Versioned> Take<Option<Items<T>>> for NullSince {
    ghost field = { λ v s. always (null_array_since s.0 v (T.schema v)) };

    fn take_from(
        self,
        alloc: Global,
        version: Version,
        cursor: &mut Cursor<'_>,
    ) -> Result<Option<Items<T>>, WireFault> {
        if version.is_since(self.0) {
            return take_null_array_at(alloc, version, cursor);
        }
        Ok(Some(take_array_at(alloc, version, cursor)?))
    }
}

impl<A: Drop, B: Drop, F: Take<A>, G: Take<B>> Take<(A, B)> for (F, G) {
    ghost field = { λ v s. F.field v s.0 ▷ G.field v s.1 };

    fn take_from(
        self,
        alloc: Global,
        version: Version,
        cursor: &mut Cursor<'_>,
    ) -> Result<(A, B), WireFault> {
        let (first, second) = self;
        let one = first.take_from(alloc, version, cursor)?;
        let other = second.take_from(alloc, version, cursor)?;
        Ok((one, other))
    }
}

/// Takes the fields of a structure, and its end. After a refusal the cursor may stand anywhere.
pub(crate) fn take_fields_at<T: Drop, F: Take<T>>(
    alloc: Global,
    version: Version,
    fields: F,
    cursor: &mut Cursor<'_>,
) -> Result<T, WireFault>
    ensures { Moves cursor.new result (ended_at version.flexible (F.field version fields).read cursor.old) }
{
    let taken = fields.take_from(alloc, version, cursor)?;
    take_end(version, cursor)?;
    Ok(taken)
}

/// The answer of a structure's `take_at`: its fields in the order of the schema, each with how it is taken, and its
/// end.
macro_rules! take_structure_at {
    (@ $last:ident) => { $last };
    (@ $first:ident, $($others:ident),+) => {
        ($first, take_structure_at!(@ $($others),+))
    };
    ($alloc:expr, $version:expr, $cursor:expr, $name:ident { $($field:ident: $how:expr),+ $(,)? }) => {{
        let take_structure_at!(@ $($field),+) =
            take_fields_at($alloc, $version, pairs!($($how),+), $cursor)?;
        Ok($name { $($field),+ })
    }};
}

pub(crate) use take_structure_at;

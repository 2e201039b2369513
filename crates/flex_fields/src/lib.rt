//! The fields of Kafka messages in the flexible encoding (KIP-482): their types, readers and writers.
#![tactic(auto)]

mod bytes;
mod cursor;
mod elements;
mod fault;
mod items;
mod laws;
mod lengths;
mod numbers;
mod old;
mod old_cursor;
mod old_out;
mod out;
mod pair;
mod put;
mod spot;
mod text;
mod version;
mod versioned;
mod versioned_fields;
mod wire;

pub use bytes::Bytes;
pub use cursor::Cursor;
pub use fault::{NoMemory, WireFault};
pub use items::Items;
pub use laws::{
    array_lengths_are_read_where_they_stand, numbers_are_read_where_they_stand,
    numbers_are_written_shortest,
};
pub use out::Out;
pub use pair::take_fields;
pub use put::{Put, put_fields};
pub use text::{Text, as_text};
pub use version::Version;
pub use versioned::{
    Versioned, put_array_at, put_end, put_null_array_at, put_where, read_whole_at, take_array_at,
    take_end, take_null_array_at, take_where, write_whole_at,
};
pub use wire::{
    Wire, put_array, put_many, put_null_array, read_front, read_whole, stand_for_one, take_array,
    take_many, take_null_array, write_whole,
};

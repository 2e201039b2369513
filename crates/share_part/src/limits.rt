/// What a fetch may acquire: at most `records` records, in batches of at most `bytes` bytes together. Where `first`,
/// no batch is in the reply yet, and the first one goes out whatever its size.
#[derive(Clone, Copy)]
pub struct Limits {
    pub records: u32,
    pub bytes: u32,
    pub first: bool,
}

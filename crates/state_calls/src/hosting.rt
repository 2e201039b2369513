use share_model::Code;

/// What a state call does at a partition of a hosted topic.
#[derive(Clone, Copy)]
pub enum Hosting {
    /// It is refused with this code.
    Refuses(Code),
    /// What is stored of the group there is looked up.
    Looks,
}

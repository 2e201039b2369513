use share_model::Name;

/// What a consumer is started with: its group, its own id, the topic, and the number of records that it takes.
#[derive(Clone, Copy)]
pub struct ClientConf {
    pub group: Name,
    pub member: Name,
    pub topic: Name,
    pub count: u32,
}

ghost use Rattle.std.specs.Prelude.{◌≡◌};

use share_model::Moment;

/// What a shard was asked, without the event itself.
#[derive(Drop)]
pub enum Tag {
    /// A part: the step of this number, counted from 0, of the link of this number.
    Part { link: u32, step: u64 },
    /// An expiry at this moment.
    Expire { now: Moment },
    /// A tick of the members at this moment.
    Tick { now: Moment },
    /// A look at what a fetch would find. It changes nothing, and no tape has it.
    Offer,
}

impl Tag {
    /// The same tag again.
    pub fn another(&self) -> Tag
        ensures { result ≡ self.now }
    {
        match self {
            Tag::Part { link, step } => Tag::Part {
                link: *link,
                step: *step,
            },
            Tag::Expire { now } => Tag::Expire {
                now: Moment::new(now.ms()),
            },
            Tag::Tick { now } => Tag::Tick {
                now: Moment::new(now.ms()),
            },
            Tag::Offer => Tag::Offer,
        }
    }
}

/// An event with its tag.
#[derive(Drop)]
pub struct Tagged<E> {
    pub tag: Tag,
    pub event: E,
}

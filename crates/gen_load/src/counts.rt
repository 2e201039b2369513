// What is counted over a session.
ghost use Rattle.std.specs.Prelude.{◌≡◌, ◌<◌, ◌^◌};
ghost use Rattle.gen_load.specs.Frames.{member_id};
ghost use Rattle.gen_load.specs.Session.{asked_again, asked_by, conn_of, member_of};

/// A member of the group.
#[derive(Clone, Copy)]
pub enum Member {
    A,
    B,
}

/// What is counted over a session: the frames, where the last batch begins and ends, `end` being the first offset
/// behind it, and how many requests each member has sent since its connection was opened.
#[derive(Clone, Copy)]
pub struct Counts {
    pub frames: u32,
    pub first: u32,
    pub end: u32,
    pub asked_a: u32,
    pub asked_b: u32,
}

impl Member {
    pub(crate) fn of_round(round: u32) -> Member
        ensures { result ≡ member_of round }
    {
        if round % 2 == 1 { Member::A } else { Member::B }
    }

    pub(crate) fn id(self) -> &'static str
        ensures { result.now ≡ member_id self }
    {
        match self {
            Member::A => "a",
            Member::B => "b",
        }
    }

    pub(crate) fn conn(self) -> u32
        ensures { result ≡ conn_of self }
    {
        match self {
            Member::A => 2,
            Member::B => 3,
        }
    }
}

impl Counts {
    pub(crate) fn asked_by(&self, member: Member) -> u32
        ensures { result ≡ asked_by member self.now }
    {
        match member {
            Member::A => self.asked_a,
            Member::B => self.asked_b,
        }
    }

    /// A frame of this member more.
    pub(crate) fn asked_again(self, member: Member) -> Counts
        requires frames { self.frames < 2 ^ 30 }
        requires asked { asked_by member self < 2 ^ 30 }
        ensures { result ≡ asked_again member self }
    {
        let frames = self.frames + 1;
        match member {
            Member::A => Counts {
                frames,
                asked_a: self.asked_a + 1,
                ..self
            },
            Member::B => Counts {
                frames,
                asked_b: self.asked_b + 1,
                ..self
            },
        }
    }
}

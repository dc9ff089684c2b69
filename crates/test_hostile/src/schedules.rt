//! The worked schedules whose growths are refused.

/// A call of an instance, and its result.
#[derive(Clone, Copy)]
pub enum Deed {
    /// A send of the message with this name to an instance.
    Sends(u8, usize),
    /// A receive of the message with this name from an instance, with this race or none.
    Gets(u8, usize, Option<u32>),
    /// The same, but received from any instance that has a message.
    GetsAny(u8, usize, Option<u32>),
}

/// A schedule: its instances, the slots of its lanes, its deeds, each of them by an instance, its text, and the text of
/// its outcome.
#[derive(Clone, Copy)]
pub struct Worked<'d> {
    pub instances: usize,
    pub capacity: usize,
    pub deeds: &'d [(usize, Deed)],
    pub text: &'d [u8],
    pub written: &'d [u8],
}

/// `no_race_through_a_reply`, `crossing_messages_race`, `any_takes_turns`, and one among nine instances.
pub static WORKED: [Worked; 4] = [
    Worked {
        instances: 3,
        capacity: 1,
        deeds: &[
            (1, Deed::Sends(b'x', 2)),
            (2, Deed::Gets(b'x', 1, None)),
            (2, Deed::Sends(b'm', 3)),
            (3, Deed::Gets(b'm', 2, None)),
            (3, Deed::Sends(b'y', 2)),
            (2, Deed::Gets(b'y', 3, None)),
        ],
        text: b"instances a b c\ncapacity 1\na send b x\nb receive a\nb send c m\nc receive b\nc send b y\nb receive c\n",
        written: b"msc run;\ninstance a;\nout x to b;\nendinstance;\ninstance b;\nin x from a;\nout m to c;\nin y from c;\nendinstance;\ninstance c;\nin m from b;\nout y to b;\nendinstance;\nendmsc;\n",
    },
    Worked {
        instances: 2,
        capacity: 1,
        deeds: &[
            (1, Deed::Sends(b'q', 2)),
            (2, Deed::Sends(b'p', 1)),
            (1, Deed::Gets(b'p', 2, Some(1))),
            (2, Deed::Gets(b'q', 1, Some(1))),
        ],
        text: b"instances a b\ncapacity 1\na send b q\nb send a p\na receive b\nb receive a\n",
        written: b"msc run;\ninstance a;\nout q to b;\nin p from b;\nendinstance;\ninstance b;\nout p to a;\nin q from a;\nendinstance;\nendmsc;\nrace a 1 2\nrace b 1 2\n",
    },
    Worked {
        instances: 3,
        capacity: 2,
        deeds: &[
            (1, Deed::Sends(b'x', 2)),
            (1, Deed::Sends(b'z', 2)),
            (3, Deed::Sends(b'y', 2)),
            (2, Deed::GetsAny(b'x', 1, None)),
            (2, Deed::GetsAny(b'y', 3, Some(1))),
            (2, Deed::GetsAny(b'z', 1, Some(2))),
        ],
        text: b"instances a b c\ncapacity 2\na send b x\na send b z\nc send b y\nb any\nb any\nb any\n",
        written: b"msc run;\ninstance a;\nout x to b;\nout z to b;\nendinstance;\ninstance b;\nin x from a;\nin y from c;\nin z from a;\nendinstance;\ninstance c;\nout y to b;\nendinstance;\nendmsc;\nrace b 1 2\nrace b 2 3\n",
    },
    Worked {
        instances: 9,
        capacity: 1,
        deeds: &[
            (9, Deed::Sends(b'x', 1)),
            (8, Deed::Sends(b'y', 1)),
            (1, Deed::GetsAny(b'y', 8, None)),
            (1, Deed::GetsAny(b'x', 9, Some(1))),
        ],
        text: b"instances a b c d e f g h i\ncapacity 1\ni send a x\nh send a y\na any\na any\n",
        written: b"msc run;\ninstance a;\nin y from h;\nin x from i;\nendinstance;\ninstance b;\nendinstance;\ninstance c;\nendinstance;\ninstance d;\nendinstance;\ninstance e;\nendinstance;\ninstance f;\nendinstance;\ninstance g;\nendinstance;\ninstance h;\nout y to a;\nendinstance;\ninstance i;\nout x to a;\nendinstance;\nendmsc;\nrace a 1 2\n",
    },
];

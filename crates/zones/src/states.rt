// How far a zone is in a collection.
ghost use Rattle.std.specs.Prelude.{◌≡◌, ◌↔◌, ◌<◌, IsTrue};
ghost use Rattle.zones.specs.States.{next_state, IsMarking, number_of};

/// The state of a zone (js/src/gc/Zone.h, `Zone::GCState`).
#[derive(Clone, Copy, Debug, PartialEq, Eq)]
pub enum State {
    /// The zone is in no collection.
    NoGC,
    /// The zone will be collected: its mark bits are being cleared, arena by arena, and count for nothing.
    Prepare,
    /// Black marking goes through the zone; gray marking waits at its edge.
    MarkBlackOnly,
    /// The zone's group is marked gray, and still black.
    MarkBlackAndGray,
    /// The zone's arenas are being swept.
    Sweep,
    /// The zone's arenas are swept, and the collection goes on in other zones.
    Finished,
}

impl State {
    /// The state that follows; after the last it is the first again.
    pub fn next(self) -> State
        ensures { result ≡ next_state self }
    {
        match self {
            State::NoGC => State::Prepare,
            State::Prepare => State::MarkBlackOnly,
            State::MarkBlackOnly => State::MarkBlackAndGray,
            State::MarkBlackAndGray => State::Sweep,
            State::Sweep => State::Finished,
            State::Finished => State::NoGC,
        }
    }

    /// Whether black marking goes through a zone in this state.
    pub fn is_marking(self) -> bool
        ensures { IsTrue result ↔ IsMarking self }
    {
        matches!(self, State::MarkBlackOnly | State::MarkBlackAndGray)
    }

    // The state's place in their order.
    pub(crate) fn number(self) -> usize
        ensures value { result ≡ number_of self }
        ensures below { result < 6 }
    {
        self as usize
    }
}

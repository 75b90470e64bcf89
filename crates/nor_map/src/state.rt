//! The state of a cell.

ghost use Rattle.std.specs.Prelude.{◌≡◌, ◌<◌, nat_lt};
ghost use Rattle.nor_map.specs.Marks.{is_state, state_of};

/// What a plan does to a cell.
#[derive(Clone, Copy)]
pub enum State {
    /// No byte of it is erased or programmed.
    Kept,
    /// Some byte of it is erased; none is programmed.
    Erased,
    /// Some byte of it is programmed; none is new.
    Restored,
    /// Some byte of it is new.
    Changed,
}

impl State {
    /// The state of a cell of which some byte is erased, is programmed, is new.
    pub(crate) fn of(erased: bool, programmed: bool, new: bool) -> State
        ensures { result ≡ state_of erased programmed new }
    {
        match (new, programmed, erased) {
            (true, _, _) => State::Changed,
            (false, true, _) => State::Restored,
            (false, false, true) => State::Erased,
            (false, false, false) => State::Kept,
        }
    }

    /// Whether it is this state.
    pub fn is(self, other: State) -> bool
        ensures { result ≡ is_state self other }
    {
        match (self, other) {
            (State::Kept, State::Kept)
            | (State::Erased, State::Erased)
            | (State::Restored, State::Restored)
            | (State::Changed, State::Changed) => true,
            _ => false,
        }
    }
}

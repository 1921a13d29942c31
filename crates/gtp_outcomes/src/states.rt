//! The words of the states of contexts.

ghost use Rattle.std.specs.Prelude.{◌≡◌};
ghost use Rattle.gtp_outcomes.specs.States.{state_word};

use gtp_gateway::State;

/// The word for a state.
pub fn state_word(state: State) -> &'static str
    ensures { result.now ≡ state_word state }
{
    match state {
        State::Pending => "pending",
        State::Active => "active",
        State::Closing => "closing",
    }
}

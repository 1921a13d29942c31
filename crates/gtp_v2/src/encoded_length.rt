//! How much room the rows of a table take: what is left of so many octets after them, `None` where
//! they don't fit.

ghost use Rattle.gtp_ie.specs.Form.{bearer_context};
ghost use Rattle.std.specs.Prelude.{◌*◌, length, map, option_map, option_to_list, [], ◌∷◌};
ghost use Rattle.gtp_ie.specs.Text.{element_encoding};
ghost use Rattle.gtp_v2.specs.Text.{rows_encoding, groups_encoding};
ghost use Rattle.gtp_values.specs.Room.{Leaves};
ghost use Rattle.gtp_v2.specs.Room.{TakesAtMost, most_of_group, value_length, several_length};

use crate::grouped_rows::Context;
use gtp_ie::IeValue;

/// What is left of a room after the element of a value.
pub fn after_row<T: IeValue>(room: usize, value: &T) -> Option<usize>
    ensures left { Leaves room (value_length (T.value value.now ∷ [])) result }
    ensures most { TakesAtMost room 259 result }
{
    room.checked_sub(4)?.checked_sub(value.body_length())
}

/// What is left of a room after the element of a value, where there is one.
pub fn after_option<T: IeValue>(room: usize, value: &Option<T>) -> Option<usize>
    ensures left { Leaves room (value_length (option_to_list
        (option_map T.value value.now))) result }
    ensures most { TakesAtMost room 259 result }
{
    match value {
        Some(value) => after_row(room, value),
        None => Some(room),
    }
}

/// What is left of a room after a bearer context.
fn after_context<C: Context>(room: usize, context: &C) -> Option<usize>
    ensures left { Leaves room (length (element_encoding bearer_context 0 (rows_encoding C.rows
        (C.values context.now))))
        result }
    ensures most { TakesAtMost room (most_of_group C.rows) result }
{
    context.room_after(room.checked_sub(4)?)
}

/// What is left of a room after bearer contexts.
#[tactic(auto, unfolding(crate::specs::Text::groups_encoding))]
pub fn after_contexts<C: Context>(room: usize, contexts: &[C]) -> Option<usize>
    ensures left { Leaves room (length (groups_encoding bearer_context 0 C.rows
        (map C.values contexts.now))) result }
    ensures most { TakesAtMost room (most_of_group C.rows * length
        (map C.values contexts.now)) result }
{
    let mut left = room;
    for context in contexts {
        left = after_context(left, context)?;
    }
    Some(left)
}

/// What is left of a room after the elements of values.
pub fn after_several<T: IeValue>(room: usize, values: &[T]) -> Option<usize>
    ensures left { Leaves room (several_length (map T.value values.now)) result }
    ensures most { TakesAtMost room (259 * length (map T.value values.now)) result }
{
    let mut left = room;
    for value in values {
        left = after_row(left, value)?;
    }
    Some(left)
}

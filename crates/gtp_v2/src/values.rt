//! Values of one type and instance in the place where they lie.

ghost use Rattle.std.specs.Iterator.{YieldsFirstBy, item_count};

use gtp_ie::{AllOf, IeValue};
use std::marker::{Model, PhantomData};

/// The values of the elements of one type and instance, in order; an element that does not read is
/// passed over. Contracts see those that are left.
#[derive(Drop)]
pub struct Values<'a, T: IeValue> {
    elements: AllOf<'a>,
    of: PhantomData<T>,
}

impl<'a, T: IeValue> Model for Values<'a, T> {
    ghost use Rattle.std.specs.Prelude.{List};
    ghost use Rattle.gtp_ie.specs.Value.{Value as AnyValue};
    ghost use Rattle.gtp_v2.specs.Viewed.{values_of};

    ghost Value = { List AnyValue };

    ghost view = { λ a. values_of T.KIND a.elements };
}

impl<'a, T: IeValue> Values<'a, T> {
    ghost use Rattle.std.specs.Prelude.{◌≡◌};
    ghost use Rattle.gtp_v2.specs.Viewed.{values_of};

    /// The values of these elements.
    pub fn of(elements: AllOf<'a>) -> Values<'a, T>
        ensures { result ≡ values_of T.KIND elements.entry }
    {
        Values {
            elements,
            of: PhantomData,
        }
    }
}

impl<'a, T: IeValue> Iterator for Values<'a, T> {
    type Item = T;

    ghost next_gives = { YieldsFirstBy T.value (λ vs. vs) };

    ghost remaining = { item_count (λ vs. vs) };

    fn next(&mut self) -> Option<T> {
        while let Some(element) = self.elements.next() {
            if let Ok(value) = T::parse(element.body) {
                return Some(value);
            }
        }
        None
    }
}

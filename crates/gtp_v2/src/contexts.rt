//! Bearer contexts in the place where they lie.

ghost use Rattle.gtp_ie.specs.Form.{bearer_context};
ghost use Rattle.std.specs.Prelude.{◌≡◌, map, option_map, Some, IsTrue, is_some};
ghost use Rattle.gtp_ie.specs.Element.{all_of};
ghost use Rattle.gtp_v2.specs.Viewed.{inner_of, optional_at};
ghost use Rattle.std.specs.Iterator.{YieldsFirstBy, item_count};

use crate::single_rows::{mandatory, optional};
use gtp_ie::kinds::BEARER_CONTEXT;
use gtp_ie::{AllOf, Elements, IeValue, Indexed};
use std::marker::Model;

/// A bearer context. Contracts see its elements.
#[derive(Debug, Drop)]
pub struct ContextView<'a> {
    /// `None` where the group is not whole, which has no elements.
    elements: Option<Indexed<'a>>,
}

impl<'a> Model for ContextView<'a> {
    ghost use Rattle.std.specs.Prelude.{List};
    ghost use Rattle.gtp_ie.specs.Element.{Element};
    ghost use Rattle.gtp_v2.specs.reading.Viewed.{list_or_none};

    ghost Value = { List Element };

    ghost view = { λ a. list_or_none a.elements };
}

impl<'a> ContextView<'a> {
    /// The value of the first element of the value's type and an instance, where there is one and it reads.
    pub fn value<T: IeValue>(&self, instance: u8) -> Option<T>
        ensures { option_map T.value result ≡ optional_at T.KIND instance self.now }
    {
        match &self.elements {
            Some(elements) => optional::<T>(elements, instance),
            None => None,
        }
    }

    /// The value of the first element of the value's type and an instance, which there is and which reads.
    pub fn needed<T: IeValue>(&self, instance: u8) -> T
        requires { IsTrue (is_some (optional_at T.KIND instance self.now)) }
        ensures { optional_at T.KIND instance self.now ≡ Some (T.value result) }
    {
        let Some(elements) = &self.elements else {
            unreachable!()
        };
        mandatory::<T>(elements, instance)
    }
}

/// Bearer contexts. Contracts see the list of those that are left, each by its elements.
#[derive(Debug, Drop)]
pub struct Contexts<'a> {
    groups: AllOf<'a>,
}

impl<'a> Model for Contexts<'a> {
    ghost use Rattle.std.specs.Prelude.{List, map};
    ghost use Rattle.gtp_ie.specs.Element.{Element};
    ghost use Rattle.gtp_v2.specs.Viewed.{inner_of};

    ghost Value = { List (List Element) };

    ghost view = { λ a. map inner_of a.groups };
}

impl<'a> Contexts<'a> {
    /// The groups of these elements.
    pub fn of(elements: &Elements<'a>) -> Contexts<'a>
        ensures { result ≡ map inner_of (all_of bearer_context 0 elements.now) }
    {
        Contexts {
            groups: elements.all(BEARER_CONTEXT, 0),
        }
    }
}

impl<'a> Iterator for Contexts<'a> {
    type Item = ContextView<'a>;

    ghost next_gives = { YieldsFirstBy (λ c. c) (λ cs. cs) };

    ghost remaining = { item_count (λ cs. cs) };

    fn next(&mut self) -> Option<ContextView<'a>> {
        let view = self.groups.next()?;
        Some(ContextView {
            elements: view.indexed().ok(),
        })
    }
}

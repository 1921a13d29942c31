//! Lists and indexes that have the room.

ghost use Rattle.std.specs.Prelude.{◌≡◌, ◌+◌, ◌<◌, ◌≤◌, ◌++◌, [], ◌∷◌, option_to_list, vec_len, vec_capacity};
ghost use Rattle.indexmap.specs.IndexSet.{index_set_len, insert_all, insert_key, spare};

use indexmap::IndexSet;
use std::hash::Hash;

/// One more at the end of a list that has the room.
pub fn push_reserved<T: Drop>(list: &mut Vec<T>, item: T)
    requires { vec_len list.old < vec_capacity list.old }
    ensures items { list.new.items ≡ list.old.items ++ item ∷ [] }
    ensures len { vec_len list.new ≡ vec_len list.old + 1 }
    ensures capacity { vec_capacity list.old ≤ vec_capacity list.new }
{
    if list.push(item).is_err() {
        unreachable!()
    }
}

/// It, if there is one, at the end of a list that has the room.
pub fn push_reserved_option<T: Drop>(list: &mut Vec<T>, item: Option<T>)
    requires { vec_len list.old < vec_capacity list.old }
    ensures { list.new.items ≡ list.old.items ++ option_to_list item }
{
    if let Some(item) = item {
        push_reserved(list, item);
    }
}

/// All of these at the end of a list that has the room.
pub fn push_all_reserved<T: Drop>(list: &mut Vec<T>, items: Vec<T>)
    requires { vec_len list.old + vec_len items ≤ vec_capacity list.old }
    ensures items { list.new.items ≡ list.old.items ++ items.items }
    ensures len { vec_len list.new ≡ vec_len list.old + vec_len items }
    ensures capacity { vec_capacity list.old ≤ vec_capacity list.new }
{
    let mut items = items;
    if list.append(&mut items).is_err() {
        unreachable!()
    }
}

/// A key in an index that has the room.
pub fn insert_reserved<K: Eq + Hash + Drop>(index: &mut IndexSet<K>, key: K)
    requires { 0 < spare index.old }
    ensures keys { index.new.keys ≡ insert_key K.eq index.old.keys key }
    ensures spare { spare index.old ≤ spare index.new + 1 }
{
    if index.insert(key).is_err() {
        unreachable!()
    }
}

/// All of these in an index that has the room.
pub fn insert_all_reserved<K: Eq + Hash + Drop>(index: &mut IndexSet<K>, keys: IndexSet<K>)
    requires { index_set_len keys ≤ spare index.old }
    ensures keys { index.new.keys ≡ insert_all K.eq index.old.keys keys.keys }
    ensures spare { spare index.old ≤ spare index.new + index_set_len keys }
{
    let mut keys = keys;
    if index.append(&mut keys).is_err() {
        unreachable!()
    }
}

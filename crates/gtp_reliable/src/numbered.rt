//! The slots of pending requests by their numbers.

ghost use Rattle.std.specs.Prelude.{◌≡◌, ℕ, ◌+◌, ◌<◌, ◌≤◌, None, Some, IsSome, cond, nat_eq};
ghost use Rattle.std.specs.Prelude.{length, is_some, if◌then◌else◌};
ghost use Rattle.std.specs.Map.{lookup};
ghost use Rattle.indexmap.specs.IndexMap.{spare};

use indexmap::IndexMap;

/// Puts in a number that is not there, in the room that there is.
pub fn put_in(names: &mut IndexMap<u32, u64>, number: u32, slot: u64)
    requires room { 0 < spare names.old }
    requires free { lookup (nat_eq number) names.old.entries ≡ None }
    ensures names { (n : ℕ) → lookup (nat_eq n) names.new.entries
        ≡ cond (nat_eq number n) (Some slot) (lookup (nat_eq n) names.old.entries) }
    ensures count { length names.new.entries ≡ length names.old.entries + 1 }
{
    if names.insert(number, slot).is_err() {
        unreachable!()
    }
}

/// Names another slot by a number that is there.
pub fn move_to(names: &mut IndexMap<u32, u64>, number: u32, slot: u64)
    requires stands { IsSome (lookup (nat_eq number) names.old.entries) }
    ensures names { (n : ℕ) → lookup (nat_eq n) names.new.entries
        ≡ cond (nat_eq number n) (Some slot) (lookup (nat_eq n) names.old.entries) }
    ensures count { length names.new.entries ≡ length names.old.entries }
    ensures room { spare names.new ≡ spare names.old }
{
    match names.get_mut(&number) {
        Some(there) => *there = slot,
        None => unreachable!(),
    }
}

/// Takes a number out, where it is there: the slot that it named.
pub fn take_out(names: &mut IndexMap<u32, u64>, number: u32) -> Option<u64>
    ensures slot { result ≡ lookup (nat_eq number) names.old.entries }
    ensures names { (n : ℕ) → lookup (nat_eq n) names.new.entries
        ≡ cond (nat_eq number n) None (lookup (nat_eq n) names.old.entries) }
    ensures count { length names.new.entries + (if is_some result then 1 else 0)
        ≡ length names.old.entries }
    ensures room { spare names.old ≤ spare names.new }
{
    names.swap_remove(&number)
}

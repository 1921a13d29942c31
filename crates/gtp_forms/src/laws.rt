//! What holds of all readings, each the contract of a function that does nothing.

ghost use Rattle.gtp_forms.specs.Laws.{IsAllTold, AreMembers, IsObject};

/// What a body tells stands for all its octets, each once, in their order: none is hidden.
pub fn all_octets_are_told()
    ensures { IsAllTold }
{}

/// As JSON, what a body tells is the members of one object.
pub fn what_is_told_is_members()
    ensures { AreMembers }
{}

/// A reader of JSON finds one object in them.
pub fn what_is_told_is_an_object()
    ensures { IsObject }
{}

//! The laws of scenarios. Their functions do nothing: each clause is a law.

ghost use Rattle.std.specs.Prelude.{◌≡◌, ◌↔◌, ◌<◌, ◌≤◌, Result, Ok, Some, IsSome, ℕ, List, take, option_and_then};
ghost use Rattle.serde_json.specs.Data.{Data};
ghost use Rattle.serde_json.specs.Read.{read};
ghost use Rattle.serde_json.specs.Written.{compact_text};
ghost use Rattle.gtp_scenario.specs.Entries.{Entry, entry_of};
ghost use Rattle.gtp_scenario.specs.declared.fault.Refusal.{Refusal};
ghost use Rattle.gtp_scenario.specs.declared.reason.event.EventFlaw.{EventFlaw};
ghost use Rattle.gtp_scenario.specs.declared.reason.head.HeadFlaw.{HeadFlaw};
ghost use Rattle.gtp_scenario.specs.Heads.{setup_of, events_at};
ghost use Rattle.gtp_scenario.specs.Named.{IsRight};
ghost use Rattle.gtp_scenario.specs.Reasons.{IsHeadFlaw, IsEntryFlaw};
ghost use Rattle.gtp_scenario.specs.Scenarios.{Scenario, most_octets, most_events, count_in, IsReading};
ghost use Rattle.gtp_scenario.specs.Spelling.{spelling, IsEvent, FitsIn64Bits};

/// Each event is read again from its JSON text, with the number of its repeats and its expected outcome.
pub fn entries_are_read_again()
    ensures again { (entry : Entry) → IsEvent entry.event entry.times →
        entry_of (spelling entry) ≡ Some entry }
    // The same of the text with no space that JSON has for it.
    ensures text { (entry : Entry) → IsEvent entry.event entry.times → FitsIn64Bits entry.event →
        option_and_then entry_of (read (compact_text (spelling entry))) ≡ Some entry }
{}

/// What is read does not depend on what comes after the first octet past the limit.
pub fn one_octet_past_the_limit_is_enough()
    ensures front { (n : ℕ) (octets : List ℕ) (reading : Result Scenario Refusal) → most_octets < n →
        IsReading (take n octets) reading ↔ IsReading octets reading }
{}

/// Whatever octets come, there is one reading of them: names leave nothing open.
pub fn octets_have_one_reading()
    ensures one { (octets : List ℕ) (reading other : Result Scenario Refusal) →
        IsReading octets reading → IsReading octets other → reading ≡ other }
{}

/// No scenario has more than 100,000 events.
pub fn scenarios_have_few_events()
    ensures few { (octets : List ℕ) (scenario : Scenario) → IsReading octets (Ok scenario) →
        count_in scenario.entries ≤ most_events }
{}

/// A head with a flaw is refused. An entry with a flaw has neither all of its numbers nor a name beside which all is right.
pub fn flaws_are_refused()
    ensures head { (d : Data) (flaw : HeadFlaw) → IsHeadFlaw d flaw →
        IsSome (setup_of d) → ¬ (IsSome (events_at d)) }
    ensures entry { (d : Data) (flaw : EventFlaw) → IsEntryFlaw d flaw → ¬ IsRight d }
{}

//! Laws of the ticks, each the contract of a function that does nothing.

ghost use Rattle.std.specs.Prelude.{◌≡◌, ℕ, ◌+◌, ◌*◌, ◌<◌, ◌≤◌, List, Some, None};
ghost use Rattle.gtp_values.specs.declared.address.Endpoint.{Endpoint as Place};
ghost use Rattle.gtp_reliable.specs.Waiting.{Waiting, just_sent, sent_again, given_up};
ghost use Rattle.gtp_reliable.specs.Held.{HeldPair, just_kept, forgotten};
ghost use Rattle.gtp_reliable.specs.Ticks.{after_ticks, held_after};

/// A request was sent again `r` times, at most `n3`, where `t3` ticks passed so often, and it waits
/// for the `k` ticks since, fewer than `t3`. After `t3` ticks more than those of the last time it
/// is given up.
pub fn requests_are_sent_again_on_time<P: Copy>()
    ensures waits { (t3 n3 r k seq : ℕ) (to : Place) (octets : List ℕ) (purpose : P)
        → r ≤ n3 → k < t3
        → after_ticks t3 n3 (r * t3 + k) (just_sent seq to octets purpose)
        ≡ Some (record (just_sent seq to octets purpose) { waited = k; resent = r }) }
    ensures ends { (t3 n3 seq : ℕ) (to : Place) (octets : List ℕ) (purpose : P) → 0 < t3
        → after_ticks t3 n3 ((n3 + 1) * t3) (just_sent seq to octets purpose) ≡ None }

    // The tick that makes `t3` sends it again, where that was done fewer than `n3` times, and gives
    // up none.
    ensures sends { (t3 n3 : ℕ) (w : Waiting P) → w.waited + 1 ≡ t3 → w.resent < n3
        → (sent_again t3 n3 w ≡ Some (record { seq = w.seq; to = w.to; octets = w.octets }))
        × (given_up t3 n3 w ≡ None) }

    // Where that was done `n3` times, it gives it up, and sends none.
    ensures gives_up { (t3 n3 : ℕ) (w : Waiting P) → w.waited + 1 ≡ t3 → w.resent ≡ n3
        → (sent_again t3 n3 w ≡ None) × (given_up t3 n3 w ≡ Some (w.seq, w.purpose)) }

    // Each tick before does neither.
    ensures quiet { (t3 n3 : ℕ) (w : Waiting P) → w.waited + 1 < t3
        → (sent_again t3 n3 w ≡ None) × (given_up t3 n3 w ≡ None) }
{}

/// An answer is held for fewer than `hold` ticks, and given up in the tick of that number.
pub fn answers_are_held_on_time()
    ensures stays { (hold k : ℕ) (source : Place) (request answer : List ℕ) → k < hold
        → held_after hold k (just_kept source request answer)
        ≡ Some (record (just_kept source request answer) { age = k }) }
    ensures ends { (hold : ℕ) (source : Place) (request answer : List ℕ) → 0 < hold
        → held_after hold hold (just_kept source request answer) ≡ None }

    // The tick of that number forgets the request, and none before.
    ensures forgets { (hold : ℕ) (pair : HeldPair) → pair.age + 1 ≡ hold
        → forgotten hold pair ≡ Some (record { source = pair.source; octets = pair.request }) }
    ensures quiet { (hold : ℕ) (pair : HeldPair) → pair.age + 1 < hold
        → forgotten hold pair ≡ None }
{}

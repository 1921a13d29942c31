//! The laws of texts. Their function does nothing: each clause is a law.

ghost use Rattle.std.specs.Prelude.{◌≡◌, ◌<◌, ◌^◌, ℕ, List, map};
ghost use Rattle.std.specs.List.{AllByRecursion};
ghost use Rattle.gtp_values.specs.declared.address.Ip.{Ip};
ghost use Rattle.gtp_values.specs.Address.{IsIp, IsIpText, ip_text};
ghost use Rattle.gtp_values.specs.Apn.{IsApn, IsLabel, apn_text, joined, labels_text};
ghost use Rattle.gtp_values.specs.Imsi.{IsImsi, IsImsiText, digits_text, value_of_digit};
ghost use Rattle.gtp_values.specs.Teid.{IsTeidText, WritesTeid, teid_text};

/// What `Display` writes of a subscriber, an access point name, an identifier or an address is read again as the
/// same value, and as no other.
pub fn texts_are_read_again()
    // The digits of a subscriber are the characters of the text.
    ensures subscriber { (digits : List ℕ) → IsImsi digits
        → IsImsiText (digits_text digits) × (map value_of_digit (digits_text digits) ≡ digits) }

    // The text of an access point name is its labels, joined by dots.
    ensures labels { (labels : List (List ℕ)) → AllByRecursion IsLabel labels
        → apn_text (labels_text labels) ≡ joined labels }

    // No two names have the same text.
    ensures name { (apn other : List ℕ) → IsApn apn → IsApn other → apn_text apn ≡ apn_text other →
        apn ≡ other }

    // The text of an identifier writes it, by eight digits.
    ensures teid { (teid : ℕ) → teid < 2 ^ 32 →
        IsTeidText (teid_text teid) × WritesTeid (teid_text teid) teid }

    // No text writes two identifiers.
    ensures one_teid { (text : List ℕ) (teid other : ℕ) → WritesTeid text teid →
        WritesTeid text other
        → teid ≡ other }

    // The text of an address writes it.
    ensures address { (ip : Ip) → IsIp ip → IsIpText (ip_text ip) ip }

    // No text writes two addresses.
    ensures one_address { (text : List ℕ) (ip other : Ip) → IsIpText text ip → IsIpText text other →
        ip ≡ other }
{}

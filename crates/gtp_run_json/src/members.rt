//! Members that stand only where there is a value.

ghost use Rattle.std.specs.Prelude.{◌≡◌, ◌++◌, OnOk, option_map};
ghost use Rattle.gtp_json.specs.reading.Tokens.{written};
ghost use Rattle.gtp_run_json.specs.Members.{where_some, word_member, number_member, teid_member};

use gtp_json::Output;
use gtp_values::Teid;
use std::alloc::AllocError;

/// Writes a TEID.
pub fn put_teid(out: &mut Output, name: &str, teid: Teid) -> Result<(), AllocError>
    ensures ok { OnOk result (out.new ≡ out.old ++ written (teid_member name.now teid)) }
{
    out.display_member(name, &teid)
}

/// Writes a TEID, where there is one.
#[tactic(auto, using(gtp_json::proofs::Tokens::appending))]
pub fn put_some_teid(out: &mut Output, name: &str, teid: Option<Teid>) -> Result<(), AllocError>
    ensures ok { OnOk result
        (out.new ≡ out.old ++ written (where_some (teid_member name.now) teid)) }
{
    match teid {
        None => Ok(()),
        Some(teid) => put_teid(out, name, teid),
    }
}

/// Writes a number, where there is one.
#[tactic(auto, using(gtp_json::proofs::Tokens::appending))]
pub fn put_some_number(out: &mut Output, name: &str, number: Option<u64>) -> Result<(), AllocError>
    ensures ok { OnOk result
        (out.new ≡ out.old ++ written (where_some (number_member name.now) number)) }
{
    match number {
        None => Ok(()),
        Some(number) => out.number_member(name, number),
    }
}

/// Writes a word, where there is one.
#[tactic(auto, using(gtp_json::proofs::Tokens::appending))]
pub fn put_some_word(out: &mut Output, name: &str, word: Option<&str>) -> Result<(), AllocError>
    ensures ok { OnOk result (out.new ≡ out.old ++ written
        (where_some (word_member name.now) (option_map (λ word. word.now) word.entry))) }
{
    match word {
        None => Ok(()),
        Some(word) => out.string_member(name, word),
    }
}

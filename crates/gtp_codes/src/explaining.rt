//! The lines that explain codes.

ghost use Rattle.std.specs.Prelude.{◌≡◌, ◌++◌, OnOk, IfOk, map, option_map};
ghost use Rattle.gtp_codes.specs.Explained.{detail_text, is_called, is_asked, line_of, lines_of, explanation};

use std::alloc::{AllocError, Global};

/// A code, and what it means.
#[derive(Clone, Copy, Debug)]
pub struct Meaning {
    /// The code, or the word `cause`.
    pub code: &'static str,
    /// What follows it: the code of an element's fault or of a limit, the number of a cause, or nothing.
    pub detail: &'static str,
    /// What it means. The clause of the standard ends it, in parentheses, where there is one.
    pub text: &'static str,
}

impl Meaning {
    /// Whether its code, or what follows it, is this word.
    fn is_called(&self, word: &str) -> bool
        ensures { result ≡ is_called word.now self.now }
    {
        self.code == word || self.detail == word
    }

    /// Whether it is asked for: by this word, or without one.
    fn is_asked(&self, word: Option<&str>) -> bool
        ensures { result ≡ is_asked (option_map (λ w. w.now) word.entry) self.now }
    {
        match word {
            Some(word) => self.is_called(word),
            None => true,
        }
    }
}

/// Appends what follows a code, if there is something.
fn put_detail(out: &mut Vec<u8>, detail: &str) -> Result<(), AllocError>
    ensures ok { OnOk result (out.new.items ≡ out.old.items ++ detail_text detail.now) }
{
    if detail.is_empty() {
        return Ok(());
    }
    out.extend_from_slice(b" ")?;
    out.extend_from_slice(detail.as_bytes())?;
    Ok(())
}

/// Appends the line of a code.
#[tactic(auto, using(crate::proofs::Texts::appending))]
fn put_line(out: &mut Vec<u8>, meaning: &Meaning) -> Result<(), AllocError>
    ensures ok { OnOk result (out.new.items ≡ out.old.items ++ line_of meaning.now) }
{
    out.extend_from_slice(meaning.code.as_bytes())?;
    put_detail(out, meaning.detail)?;
    out.extend_from_slice(b": ")?;
    out.extend_from_slice(meaning.text.as_bytes())?;
    out.extend_from_slice(b"\n")?;
    Ok(())
}

/// Appends the lines of those of these codes that a word asks for.
#[tactic(auto, using(crate::proofs::Texts::appending))]
fn put_lines(out: &mut Vec<u8>, meanings: &[Meaning], word: Option<&str>) -> Result<(), AllocError>
    ensures ok { OnOk result (out.new.items
        ≡ out.old.items ++ lines_of (option_map (λ w. w.now) word.entry) meanings.now) }
{
    for meaning in meanings {
        if meaning.is_asked(word) {
            put_line(out, meaning)?;
        }
    }
    Ok(())
}

/// The lines of those of the codes of these parts that a word asks for, `<code>: <meaning>` or `<code> <detail>: <meaning>`
/// each, in their order. A word asks for each code that it is, or whose detail it is; without a word all are asked for. The
/// error is that an allocation was refused.
#[tactic(auto, using(crate::proofs::Texts::appending))]
pub fn explain(
    alloc: Global,
    parts: &[&[Meaning]],
    word: Option<&str>,
) -> Result<Vec<u8>, AllocError>
    ensures { IfOk result (λ text. text.items
        ≡ explanation (option_map (λ w. w.now) word.entry) (map (λ part. part.now) parts.now)) }
{
    let mut text = Vec::new(alloc);
    for part in parts {
        put_lines(&mut text, part, word)?;
    }
    Ok(text)
}

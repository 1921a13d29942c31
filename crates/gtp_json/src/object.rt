//! JSON written a token at a time.

ghost use Rattle.std.specs.Prelude.{◌≡◌, ◌<◌, [], ◌++◌, All, map, OnOk, IfOk, IfSome, codes};
ghost use Rattle.json.specs.Json.{boolean, string as string_json};
ghost use Rattle.json.specs.Tree.{json_tokens};
ghost use Rattle.gtp_json.specs.Tree.{member, number_of};
ghost use Rattle.gtp_json.specs.reading.Tokens.{written, keyed, opened, closed, array_opened, array_closed};
ghost use Rattle.gtp_json.specs.Values.{hexadecimal};
ghost use Rattle.json.specs.Lex.{tokens};
ghost use Rattle.json.specs.Print.{print};
ghost use Rattle.gtp_values.specs.Imsi.{digits_text};
ghost use Rattle.gtp_forms.specs.Told.{event_of};
ghost use Rattle.gtp_forms.specs.Tokens.{tokens_of, bracketed};

use gtp_forms::{Told, write_told};
use json::Writer;
use std::alloc::{AllocError, Global};
use std::fmt::Display;
use std::marker::Model;

/// Writes JSON. Contracts see the tokens so far.
#[derive(Drop)]
pub struct Output {
    alloc: Global,
    writer: Writer<Global>,
}

impl Model for Output {
    ghost use Rattle.std.specs.Prelude.{◌≡◌, List, []};
    ghost use Rattle.json.specs.Token.{Token};

    ghost Value = { List Token };

    ghost view = { λ a. a.writer.tokens };

    ghost invariant = { λ a. a.writer.before ≡ [] };
}

impl Output {
    /// Nothing yet.
    pub fn new(alloc: Global) -> Output
        ensures { result ≡ [] }
    {
        Output {
            alloc,
            writer: Writer::new(Vec::new(alloc)),
        }
    }

    /// The allocator.
    pub fn alloc(&self) -> Global {
        self.alloc
    }

    /// The text of all tokens, and a line feed.
    pub fn into_line(self) -> Result<Vec<u8>, AllocError>
        ensures text { IfOk result (λ text. text.items ≡ print self ++ codes "\n") }
        ensures reads_back { tokens (print self) ≡ self }
    {
        let Output { writer, .. } = self;
        let mut text = writer.into_inner();
        text.push(b'\n')?;
        Ok(text)
    }

    #[tactic(auto, unfolding(crate::specs::reading::Tokens::opened))]
    pub fn begin_object(&mut self) -> Result<(), AllocError>
        ensures ok { OnOk result (self.new ≡ self.old ++ opened) }
    {
        self.writer.begin_object()
    }

    #[tactic(auto, unfolding(crate::specs::reading::Tokens::closed))]
    pub fn end_object(&mut self) -> Result<(), AllocError>
        ensures ok { OnOk result (self.new ≡ self.old ++ closed) }
    {
        self.writer.end_object()
    }

    #[tactic(auto, unfolding(crate::specs::reading::Tokens::array_opened))]
    pub fn begin_array(&mut self) -> Result<(), AllocError>
        ensures ok { OnOk result (self.new ≡ self.old ++ array_opened) }
    {
        self.writer.begin_array()
    }

    #[tactic(auto, unfolding(crate::specs::reading::Tokens::array_closed))]
    pub fn end_array(&mut self) -> Result<(), AllocError>
        ensures ok { OnOk result (self.new ≡ self.old ++ array_closed) }
    {
        self.writer.end_array()
    }

    #[tactic(auto, unfolding(crate::specs::reading::Tokens::keyed))]
    pub fn key(&mut self, name: &str) -> Result<(), AllocError>
        ensures ok { OnOk result (self.new ≡ self.old ++ keyed name.now) }
    {
        self.writer.key(name)
    }

    pub fn string(&mut self, text: &str) -> Result<(), AllocError>
        ensures ok { OnOk result (self.new ≡ self.old ++ json_tokens (string_json text.now)) }
    {
        self.writer.string(text)
    }

    pub fn number(&mut self, number: u64) -> Result<(), AllocError>
        ensures ok { OnOk result (self.new ≡ self.old ++ json_tokens (number_of number)) }
    {
        self.writer.u64(number)
    }

    /// A string of octets in lower case hexadecimal.
    pub fn hex(&mut self, octets: &[u8]) -> Result<(), AllocError>
        ensures ok { OnOk result (self.new ≡ self.old ++ json_tokens (hexadecimal octets.now)) }
    {
        let text = hex::encode(self.alloc, octets)?;
        self.string(&text)
    }

    /// A string of what a value displays.
    pub fn display<D: Display>(&mut self, value: &D) -> Result<(), AllocError>
        ensures ok { OnOk result (IfSome (D.Display.output value.now)
            (λ text. self.new ≡ self.old ++ json_tokens (string_json text))) }
    {
        let text = value.to_string(self.alloc)?;
        self.string(&text)
    }

    /// A string of decimal digits.
    pub fn digits(&mut self, digits: &[u8]) -> Result<(), AllocError>
        requires { All (λ digit. digit < 10) digits.now }
        ensures ok { OnOk result (self.new ≡ self.old
            ++ json_tokens (string_json (digits_text digits.now))) }
    {
        let mut text = String::new(self.alloc);
        for digit in digits {
            text.push(char::from(b'0' + *digit))?;
        }
        self.string(&text)
    }

    /// An object of what was told.
    #[tactic(auto, using(crate::proofs::Tokens::appending))]
    pub fn told_object(&mut self, told: &[Told]) -> Result<(), AllocError>
        ensures ok { OnOk result (self.new ≡ self.old ++ bracketed (tokens_of (map event_of told.now))) }
    {
        self.writer.begin_object()?;
        write_told(self.alloc, &mut self.writer, told)?;
        self.writer.end_object()
    }

    /// A member that is a number.
    #[tactic(auto, using(crate::proofs::Tokens::appending, crate::proofs::Tokens::member_tokens_are))]
    pub fn number_member(&mut self, name: &str, number: u64) -> Result<(), AllocError>
        ensures ok { OnOk result
            (self.new ≡ self.old ++ written (member name.now (number_of number))) }
    {
        self.key(name)?;
        self.number(number)
    }

    /// A member that is a string.
    #[tactic(auto, using(crate::proofs::Tokens::appending, crate::proofs::Tokens::member_tokens_are))]
    pub fn string_member(&mut self, name: &str, text: &str) -> Result<(), AllocError>
        ensures ok { OnOk result
            (self.new ≡ self.old ++ written (member name.now (string_json text.now))) }
    {
        self.key(name)?;
        self.string(text)
    }

    /// A member that is a string of octets in lower case hexadecimal.
    #[tactic(auto, using(crate::proofs::Tokens::appending, crate::proofs::Tokens::member_tokens_are))]
    pub fn hex_member(&mut self, name: &str, octets: &[u8]) -> Result<(), AllocError>
        ensures ok { OnOk result
            (self.new ≡ self.old ++ written (member name.now (hexadecimal octets.now))) }
    {
        self.key(name)?;
        self.hex(octets)
    }

    /// A member that is a string of what a value displays.
    #[tactic(auto, using(crate::proofs::Tokens::appending, crate::proofs::Tokens::member_tokens_are))]
    pub fn display_member<D: Display>(&mut self, name: &str, value: &D) -> Result<(), AllocError>
        ensures ok { OnOk result (IfSome (D.Display.output value.now)
            (λ text. self.new ≡ self.old ++ written (member name.now (string_json text)))) }
    {
        self.key(name)?;
        self.display(value)
    }

    /// A member that is `true` or `false`.
    #[tactic(auto, using(crate::proofs::Tokens::appending, crate::proofs::Tokens::member_tokens_are))]
    pub fn bool_member(&mut self, name: &str, value: bool) -> Result<(), AllocError>
        ensures ok { OnOk result
            (self.new ≡ self.old ++ written (member name.now (boolean value))) }
    {
        self.key(name)?;
        self.writer.boolean(value)
    }
}

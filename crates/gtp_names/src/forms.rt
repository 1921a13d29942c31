//! Forms, in parts of at most sixteen: the number of a form is sixteen times its part, and its place in that.

pub mod causes;
pub mod components;
pub mod delays;
pub mod extensions;
pub mod flags;
pub mod location;
pub mod nodes;
pub mod numbers;
pub mod options;
pub mod quality;
pub mod templates;

ghost use Rattle.std.specs.Prelude.{◌≡◌};
ghost use Rattle.gtp_names.specs.Parts.{parts_of};

use gtp_forms::Step;

/// At most sixteen forms.
pub type Part = &'static [&'static [Step]];

/// The forms of values, part by part.
#[derive(Clone, Copy, Debug)]
pub struct Forms {
    pub location: Part,
    pub options: Part,
    pub components: Part,
    pub templates: Part,
    pub nodes: Part,
    pub numbers: Part,
    pub flags: Part,
    pub quality: Part,
    pub causes: Part,
    pub extensions: Part,
    pub delays: Part,
}

impl Forms {
    /// All parts, in the order of their numbers.
    pub fn parts(&self) -> [Part; 11]
        ensures { result ≡ parts_of self.now }
    {
        [
            self.location,
            self.options,
            self.components,
            self.templates,
            self.nodes,
            self.numbers,
            self.flags,
            self.quality,
            self.causes,
            self.extensions,
            self.delays,
        ]
    }
}

/// The forms of all parts.
pub fn all_forms() -> Forms {
    Forms {
        location: location::forms(),
        options: options::forms(),
        components: components::forms(),
        templates: templates::forms(),
        nodes: nodes::forms(),
        numbers: numbers::forms(),
        flags: flags::forms(),
        quality: quality::forms(),
        causes: causes::forms(),
        extensions: extensions::forms(),
        delays: delays::forms(),
    }
}

//! A text of at most `N` octets that is `Copy` and takes no memory.

ghost use Rattle.std.specs.Prelude.{◌≡◌, ◌≤◌, ◌<◌, [], ◌∷◌, ◌++◌, length};

use std::marker::Model;

/// At most `N` octets. Contracts see the list of them.
#[derive(Clone, Copy, Debug)]
pub struct Octets<const N: usize> {
    cells: [u8; N],
    len: u8,
}

impl<const N: usize> Model for Octets<N> {
    ghost use Rattle.std.specs.Prelude.{ℕ, List, take, length};

    ghost Value = { List ℕ };

    ghost use Rattle.gtp_values.specs.Padded.{IsPadded, padded, padded_back};

    ghost view = { λ a. take a.len a.cells };

    ghost invariant = { λ a. IsPadded N a.cells a.len };

    ghost inverse = { λ xs. record { cells = padded N xs; len = length xs } };

    ghost inverse_ok = { λ a h. padded_back (λ cells len. record
        { cells = cells; len = len }) N a.cells a.len h };
}

impl<const N: usize> Octets<N> {
    /// No octets.
    pub fn new() -> Octets<N>
        ensures { result ≡ [] }
    {
        Octets {
            cells: [0u8; N],
            len: 0,
        }
    }

    /// Appends an octet.
    pub fn push(&mut self, octet: u8)
        requires room { length self.old < N }
        requires count { N < 256 }
        ensures { self.new ≡ self.old ++ octet ∷ [] }
    {
        // A local, since to the compiler a write into the cells may change the number.
        let len = self.len;
        self.cells[len as usize] = octet;
        self.len = len + 1;
    }

    /// The octets of a slice.
    pub fn of(octets: &[u8]) -> Octets<N>
        requires room { length octets.now ≤ N }
        requires count { N < 256 }
        ensures { result ≡ octets.now }
    {
        let mut cells = [0u8; N];
        cells[..octets.len()].copy_from_slice(octets);
        Octets {
            cells,
            len: octets.len() as u8,
        }
    }

    /// The octets, as a slice.
    pub fn as_slice(&self) -> &[u8]
        ensures { result.now ≡ self.now }
    {
        &self.cells[..self.len as usize]
    }
}

impl<const N: usize> PartialEq for Octets<N> {
    ghost use Rattle.std.specs.Prelude.{nat_eq};
    ghost use Rattle.std.specs.Cmp.Lexicographic.{pointwise, lists_per};
    ghost use Rattle.std.specs.Cmp.Rules.{comparing};
    ghost use Rattle.std.proofs.Common.{rules};

    ghost eq = { pointwise nat_eq };

    ghost laws = { lists_per (Prim.search (comparing, rules)) };

    fn eq(&self, other: &Octets<N>) -> bool {
        self.as_slice() == other.as_slice()
    }
}

impl<const N: usize> Eq for Octets<N> {
    ghost use Rattle.std.specs.Cmp.Lexicographic.{lists_equiv};
    ghost use Rattle.std.specs.Cmp.Rules.{comparing};
    ghost use Rattle.std.proofs.Common.{rules};

    ghost laws = { lists_equiv (Prim.search (comparing, rules)) };
}

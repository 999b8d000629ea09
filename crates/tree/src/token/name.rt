//! Names.

ghost use Rattle.std.specs.Prelude.{◌≡◌, ◌≤◌, ◌↔◌, length, IsSome, IfSome};
ghost use Rattle.std.specs.Str.{IsAscii};

use std::marker::Model;

/// How many bytes a name has at most.
pub const MAX_NAME: usize = 16;

/// An ASCII text of at most 16 bytes, kept in place. A clause sees its bytes.
#[derive(Clone, Copy, Debug, PartialEq, Eq, Drop)]
pub struct Name {
    bytes: [u8; MAX_NAME],
    len: usize,
}

impl Model for Name {
    ghost use Rattle.std.specs.Prelude.{◌≡◌, ◌≤◌, ◌++◌, ◌-◌, ℕ, List, length, take, drop, replicate};
    ghost use Rattle.std.specs.Coded.{coded_list, coded_ℕ};
    ghost use Rattle.std.specs.Str.{IsAscii};
    ghost use Rattle.tree.specs.Token.Padding.{length_of_front, padded_front};

    ghost Value = { List ℕ };

    ghost coded = { coded_list coded_ℕ };

    ghost view = { λ n. take n.len n.bytes };

    // The rest of the room is zeros, so that equal names have equal bytes.
    ghost invariant = { λ n. (n.len ≤ 16) × (length n.bytes ≡ 16) × (drop n.len n.bytes ≡ replicate (16 - n.len) 0) × IsAscii (take n.len n.bytes) };

    ghost inverse = { λ w. record { bytes = w ++ replicate (16 - length w) 0; len = length w } };

    ghost inverse_ok = { λ n h i. record {
      bytes = padded_front n.len n.bytes h.0 h.1 h.2 i;
      len = length_of_front n.len n.bytes h.0 h.1 i;
    } };
}

impl Name {
    /// The name with these bytes, if they are few enough.
    pub fn new(text: &[u8]) -> Option<Name>
        requires { IsAscii text.now }
        ensures fits { IsSome result ↔ (length text.now ≤ 16) }
        ensures value { IfSome result (λ name. name ≡ text.now) }
    {
        if text.len() > MAX_NAME {
            return None;
        }
        let mut bytes = [0; MAX_NAME];
        bytes[..text.len()].copy_from_slice(text);
        Some(Name {
            bytes,
            len: text.len(),
        })
    }

    /// The bytes of the name.
    pub fn as_bytes(&self) -> &[u8]
        ensures value { result.now ≡ self.now }
        ensures short { length self.now ≤ 16 }
        ensures ascii { IsAscii self.now }
    {
        &self.bytes[..self.len]
    }

    /// The name as text.
    pub fn as_str(&self) -> &str
        ensures value { result.now ≡ self.now }
        ensures short { length self.now ≤ 16 }
    {
        match str::from_utf8(self.as_bytes()) {
            Ok(text) => text,
            Err(_) => unreachable!(),
        }
    }
}

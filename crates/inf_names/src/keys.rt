//! Names without case, the keys of the map in which the entries of names are.
ghost use Rattle.std.specs.{Cmp.Lexicographic.nat_list_eq_equiv, Cmp.Rules.hashing, Cmp.on_equiv, Cmp.on_per, Cmp.partial_equiv_from_equiv};
ghost use Rattle.std.specs.{Int.from_le_bytes, Int.to_le_bytes, Int.w64, Str.bytes_eq};
ghost use Rattle.std.specs.Prelude.{◌≡◌, ◌+◌, ◌≤◌, ◌↔◌, IsTrue, drop, length, take};
ghost use Rattle.std.proofs.Common.{rules};
ghost use Rattle.inf_names.specs.{Keys.padded, Keys.words, Symbols.folded};

use std::hash::{Hash, Hasher};
use std::marker::Model;

/// A name without case. It is filled up with zeros, and so is compared and hashed in whole words.
#[derive(Drop)]
pub(crate) struct Key {
    bytes: [u8; 40],
    size: usize,
}

impl Model for Key {
    ghost use Rattle.std.specs.Prelude.{◌≡◌, ◌≤◌, ℕ, ◌-◌, take, drop, replicate};
    ghost use Rattle.std.specs.Coded.{coded_ℕ};
    ghost use Rattle.arrayvec.specs.ArrayVec.{ArrayVec as Items, array_vec_code};

    ghost Value = { Items ℕ };

    ghost coded = { array_vec_code coded_ℕ };

    ghost view = { λ k. record { items = take k.size k.bytes } };

    ghost invariant = { λ k. (k.size ≤ 40) × (drop k.size k.bytes ≡ replicate (40 - k.size) 0) };
}

/// Returns the eight bytes from `at` on, as one number.
fn word(bytes: &[u8; 40], at: usize) -> u64
    requires { at + 8 ≤ 40 }
    ensures bytes { to_le_bytes w64 result ≡ take 8 (drop at bytes.now) }
    ensures value { result ≡ from_le_bytes w64 (take 8 (drop at bytes.now)) }
{
    u64::from_le_bytes([
        bytes[at],
        bytes[at + 1],
        bytes[at + 2],
        bytes[at + 3],
        bytes[at + 4],
        bytes[at + 5],
        bytes[at + 6],
        bytes[at + 7],
    ])
}

/// Returns whether the eight bytes from `at` on are the same in `a` and `b`.
fn same_at(a: &[u8; 40], b: &[u8; 40], at: usize) -> bool
    requires { at + 8 ≤ 40 }
    ensures { IsTrue result ↔ (take 8 (drop at a.now) ≡ take 8 (drop at b.now)) }
{
    word(a, at) == word(b, at)
}

/// Returns whether all bytes of `a` and `b` are the same.
fn same(a: &[u8; 40], b: &[u8; 40]) -> bool
    ensures { result ≡ bytes_eq a.now b.now }
{
    same_at(a, b, 0) & same_at(a, b, 8) & same_at(a, b, 16) & same_at(a, b, 24) & same_at(a, b, 32)
}

impl Key {
    /// Returns the key of a name of at most 40 bytes.
    pub(crate) fn of(name: &[u8]) -> Key
        requires { length name.now ≤ 40 }
        ensures { result.items ≡ folded name.now }
    {
        let size = name.len();
        let mut bytes = [0; 40];
        bytes[..size].copy_from_slice(name);
        for byte in &mut bytes {
            *byte = byte.to_ascii_lowercase();
        }
        Key { bytes, size }
    }
}

impl PartialEq for Key {
    ghost eq = { λ a b. bytes_eq a.items b.items };

    ghost laws = { on_per (λ k. k.items) (partial_equiv_from_equiv nat_list_eq_equiv) };

    fn eq(&self, other: &Key) -> bool {
        self.size == other.size && same(&self.bytes, &other.bytes)
    }
}

impl Eq for Key {
    ghost laws = { on_equiv (λ k. k.items) nat_list_eq_equiv };
}

/// Hashes the zeros behind the name, too.
impl Hash for Key {
    ghost hash_input = { λ k. words (padded k.items) };

    ghost respects_eq = { Prim.search (hashing, rules) };

    fn hash<H: Hasher>(&self, state: &mut H) {
        state.write_u64(word(&self.bytes, 0));
        state.write_u64(word(&self.bytes, 8));
        state.write_u64(word(&self.bytes, 16));
        state.write_u64(word(&self.bytes, 24));
        state.write_u64(word(&self.bytes, 32));
    }
}

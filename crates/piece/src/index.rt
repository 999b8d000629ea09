//! Values by the numbers of their cells.

ghost use Rattle.std.specs.Prelude.{◌≡◌, ◌<◌, ◌≤◌, ◌+◌, ℕ, nat_eq};
ghost use Rattle.indexmap.specs.IndexMap.{get, index_map_len, spare, IsEmpty};
ghost use Rattle.piece.specs.Found.{number_or_zero, or_else, value_for};

use indexmap::IndexMap;

/// Notes the value of a number, if there is one. The first value of a number stands. It takes no memory.
pub(crate) fn note(index: &mut IndexMap<u32, i64>, number: Option<u32>, value: i64)
    requires { 0 < spare index.old }
    ensures found { (n : ℕ) → get nat_eq index.new n ≡ or_else (get nat_eq index.old n) (value_for number n value) }
    ensures count { index_map_len index.new ≤ index_map_len index.old + 1 }
    ensures room { index_map_len index.old + spare index.old ≤ index_map_len index.new + spare index.new }
{
    let Some(number) = number else {
        return;
    };
    if index.contains_key(&number) {
        return;
    }
    let Ok(_) = index.insert(number, value) else {
        unreachable!()
    };
}

/// Forgets all values. The room stays. An index that has none stays as it is, since clearing it takes time with its room.
#[tactic(auto, using(std::proofs::lemmas::List::nil_from_length))]
pub(crate) fn forget(index: &mut IndexMap<u32, i64>)
    ensures empty { IsEmpty index.new }
    ensures len { index_map_len index.new ≡ 0 }
    ensures room { index_map_len index.old + spare index.old ≤ spare index.new }
{
    if index.is_empty() {
        return;
    }
    index.clear();
}

/// The value of a number, 0 where none is noted.
pub(crate) fn value_in(index: &IndexMap<u32, i64>, number: u32) -> i64
    ensures { result ≡ number_or_zero (get nat_eq index.now number) }
{
    match index.get(&number) {
        Some(value) => *value,
        None => 0,
    }
}

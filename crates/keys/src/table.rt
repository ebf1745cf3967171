// The key table: ten times a length and fifteen bytes, of which as many are in use. Its layout is tested, and the macros are read out of it.
ghost use Rattle.std.specs.Prelude.{◌≡◌, ◌<◌};
ghost use Rattle.keys.specs.Keys.{valid_key, tableb, length_at, macro_at, lengths_of, macros_of};

use octets::zero;

pub const KEYS: usize = 10;

pub const MACRO_LEN: usize = 15;

// A length byte, and the macro.
pub const KEY_SIZE: usize = 16;

pub const TABLE_SIZE: usize = 160;

pub type Table = [u8; TABLE_SIZE];

// The soft-key macros, and how many bytes of each are in use.
pub type Macros = [[u8; MACRO_LEN]; KEYS];

pub type Lengths = [usize; KEYS];

// How many bytes of key k's macro are in use.
#[tactic(auto, unfolding(crate::specs::Keys::length_at))]
pub fn length_at(tab: &Table, k: usize) -> usize
    requires { k < 10 }
    ensures { result ≡ length_at tab.now k }
{
    usize::from(tab[KEY_SIZE * k])
}

#[tactic(auto, unfolding(crate::specs::Keys::macro_at, octets::specs::Part::window))]
pub fn macro_at(tab: &Table, k: usize) -> &[u8; MACRO_LEN]
    requires { k < 10 }
    ensures { result.now ≡ macro_at tab.now k }
{
    tab[KEY_SIZE * k + 1..KEY_SIZE * (k + 1)]
        .as_array()
        .unwrap()
}

#[tactic(auto, using(crate::proofs::TableLaws::macros_end))]
pub fn macros_of(tab: &Table) -> Macros
    ensures { result ≡ macros_of tab.now }
{
    let mut all = [[0; MACRO_LEN]; KEYS];
    for (k, m) in all.iter_mut().enumerate() {
        *m = *macro_at(tab, k);
    }
    all
}

#[tactic(auto, using(crate::proofs::TableLaws::lengths_end))]
pub fn lengths_of(tab: &Table) -> Lengths
    ensures { result ≡ lengths_of tab.now }
{
    let mut all = [0; KEYS];
    for (k, n) in all.iter_mut().enumerate() {
        *n = length_at(tab, k);
    }
    all
}

// A length 0 to 15, and unused bytes 0.
#[tactic(auto, using(crate::proofs::TableLaws::key_long, crate::proofs::TableLaws::key_rest))]
fn key_ok(tab: &Table, k: usize) -> bool
    requires { k < 10 }
    ensures { result ≡ valid_key tab.now k }
{
    let n = length_at(tab, k);
    n <= MACRO_LEN && zero::all_zero(&macro_at(tab, k)[n..])
}

// Is the slice a key table as the layout asks?
#[tactic(auto, using(crate::proofs::TableLaws::other_length))]
pub fn table_ok(tab: &[u8]) -> bool
    ensures { result ≡ tableb tab.now }
{
    let Some(tab) = tab.as_array() else {
        return false;
    };
    (0..KEYS).all(|k| key_ok(tab, k))
}

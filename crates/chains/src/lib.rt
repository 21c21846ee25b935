// Chains: elements with numbers below 1,024 by their keys below 2,048, in a slice of 3,072 words of 16 bits. Word k holds the last element with
// key k, word 2,048 + i the element before element i with the same key: as a number plus 1, and 0 where there is none.
// Kept (6): memory is fixed and lent, so elements are numbers, and the chains of all keys share one slice.
#![tactic(auto)]

ghost use Rattle.std.specs.Prelude.{◌≡◌, ℕ, ◌<◌, ◌+◌, length};
ghost use Rattle.chains.specs.Chains.{number_after, last_below, Chained};

use limits::Limits;

// The last element with key k.
pub fn last(t: &[u16], k: usize) -> Option<usize>
    requires { (length t.now ≡ 3072) × (k < 2048) }
    ensures { (key : ℕ → ℕ) (n : ℕ) → Chained key n t.now → number_after result ≡ last_below key k n }
{
    usize::from(t[k]).checked_sub(1)
}

// The element before element i with the same key.
pub fn before(t: &[u16], i: usize) -> Option<usize>
    requires { (length t.now ≡ 3072) × (i < 1024) }
    ensures { (key : ℕ → ℕ) (n : ℕ) → Chained key n t.now → i < n → number_after result ≡ last_below key (key i) i }
{
    usize::from(t[Limits::CHAIN_KEYS + i]).checked_sub(1)
}

// Enters element i, whose key is k, behind the elements below i.
pub fn add(t: &mut [u16], k: usize, i: usize)
    requires { (length t.old ≡ 3072) × (k < 2048) × (i < 1024) }
    ensures { (key : ℕ → ℕ) → key i ≡ k → Chained key i t.old → Chained key (i + 1) t.new }
{
    t[Limits::CHAIN_KEYS + i] = t[k];
    t[k] = (i + 1) as u16;
}

//! Laws of tags and of the permutation that gives them. Each function states its law in its contract, and does nothing.

ghost use Rattle.std.specs.Prelude.{◌≡◌, ◌≢◌, ℕ, ◌<◌, ◌≤◌, ◌^◌, All};
ghost use Rattle.std.specs.List.{AllPairs};
ghost use Rattle.sctp_cookie.specs.Permutation.{permuted, permuted_back};
ghost use Rattle.sctp_cookie.specs.Tags.{Drawing, drawn, numbers};

/// Whatever the rounds compute, the network is a permutation of the 32-bit numbers.
pub fn the_network_is_a_permutation()
    ensures fits { (f : ℕ → ℕ → ℕ) (n : ℕ) → n < 2 ^ 32 → permuted f n < 2 ^ 32 }
    ensures fits_back { (f : ℕ → ℕ → ℕ) (n : ℕ) → n < 2 ^ 32 → permuted_back f n < 2 ^ 32 }
    ensures back { (f : ℕ → ℕ → ℕ) (n : ℕ) → n < 2 ^ 32 → permuted_back f (permuted f n) ≡ n }
    ensures forth { (f : ℕ → ℕ → ℕ) (n : ℕ) → n < 2 ^ 32 → permuted f (permuted_back f n) ≡ n }
    ensures apart { (f : ℕ → ℕ → ℕ) (m n : ℕ) → m < 2 ^ 32 → n < 2 ^ 32 → permuted f m ≡ permuted f n → m ≡ n }
{}

/// All tags that are ever drawn differ from each other, and none is 0.
pub fn tags_are_fresh()
    ensures differ { (d : Drawing) → d.used ≤ numbers → AllPairs (λ s t. s ≢ t) (drawn d) }
    ensures none_is_0 { (d : Drawing) → All (λ tag. tag ≢ 0) (drawn d) }
    ensures fit { (d : Drawing) → d.used ≤ numbers → All (λ tag. tag < 2 ^ 32) (drawn d) }
{}

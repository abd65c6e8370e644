//! The laws of the field, for proofs about computations with symbols.

ghost use Rattle.std.specs.Prelude.{◌≡◌, ◌≢◌, ◌⊎◌, ℕ, true, ◌<◌};
ghost use Rattle.p25_gf64.specs.{declared.symbol.Sym.{Sym}, Field.{FieldLaws, power}, Symbol.{number, alpha}, Gf64.{gf64}};

/// **Theorem.** The symbols are a field.
pub fn field_laws()
    ensures laws { FieldLaws gf64.zero gf64.one gf64.add gf64.mul gf64.inverse }
    ensures zero_factor { (x y : Sym) → gf64.mul x y ≡ gf64.zero → (x ≡ gf64.zero) ⊎ (y ≡ gf64.zero) }
{}

/// **Theorem.** A symbol is determined by its number.
pub fn symbol_laws()
    ensures same { (x y : Sym) → number x ≡ number y → x ≡ y }
    ensures equal { (x y : Sym) → ⟦<crate::Sym as PartialEq>⟧.eq x y ≡ true → x ≡ y }
    ensures zero { number gf64.zero ≡ 0 }
    ensures one { number gf64.one ≡ 1 }
    ensures alpha { number alpha ≡ 2 }
{}

/// **Theorem.** α has the order 63, and its powers are all symbols but 0.
pub fn alpha_order()
    ensures one { power gf64 alpha 63 ≡ gf64.one }
    ensures apart { (i j : ℕ) → i < 63 → j < 63 → power gf64 alpha i ≡ power gf64 alpha j → i ≡ j }
    ensures all { (x : Sym) → x ≢ gf64.zero → (i : ℕ) × (i < 63) × (power gf64 alpha i ≡ x) }
{}
